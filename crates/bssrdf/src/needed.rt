// Whether the rows that a query needs are built.
ghost use Rattle.std.specs.Prelude.{◌≡◌, cond, true, false, [], ◌++◌, ℕ, ◌-◌, ◌≤◌, ◌<◌, length, get_or};
ghost use Rattle.std.specs.Float.Ieee.{eq};
ghost use Rattle.std.specs.Option.{ForSome, option_map_or};
ghost use Rattle.elementary.specs.Notation.{lit};
ghost use Rattle.interpolation.specs.Weights.{four_of, offset_of};
ghost use Rattle.interpolation.specs.Laws.{Reach};
ghost use Rattle.bssrdf.specs.Axes.{weights_by};
ghost use Rattle.bssrdf.specs.Needed as Needed;

use crate::axes::Axis;
use interpolation::weights::Place;

// Whether the row is marked built, or not needed since its weight w is zero. Rows count from 1 here. A
// mark is a byte, as C lends it.
#[tactic(auto, unfolding(crate::specs::Needed::is_marked))]
fn is_ready(marks: &[u8], row: usize, w: f32) -> bool
    requires { eq w (lit 0) ≡ false → (1 ≤ row) × (row ≤ length marks.now) }
    ensures { result ≡ cond (eq w (lit 0)) true (Needed.is_marked marks.now (row - 1)) }
{
    if w == 0.0 {
        return true;
    }
    marks[row - 1] == 1
}

// Whether each row of nonzero weight is marked built, for the weights of a place.
pub fn are_marked(marks: &[u8], p: Place) -> bool
    requires { Reach p.four p.interval (length marks.now) }
    ensures { result ≡ Needed.all_marked marks.now (Needed.weighted_rows (offset_of p.interval) p.four) }
{
    p.over_four(true, |row, w, ready| ready & is_ready(marks, row, w))
}

// The same of one channel of three, which needs no row where it is outside, and so has no place.
fn is_channel_ready(marks: &[u8], place: Option<Place>) -> bool
    requires { ForSome place (λ p. Reach p.four p.interval (length marks.now)) }
    ensures { result ≡ option_map_or (λ p. Needed.all_marked marks.now (Needed.weighted_rows (offset_of p.interval) p.four)) place true }
{
    match place {
        Some(p) => are_marked(marks, p),
        None => true,
    }
}

// And of all three.
pub fn are_ready(marks: &[u8], inside: [bool; 3], rho: Axis) -> bool
    requires { (k : ℕ) → k < 3 → get_or inside k false ≡ true → Reach (four_of (get_or rho.weights k [])) (get_or rho.at k 0) (length marks.now) }
    ensures { result ≡ Needed.all_marked marks.now (Needed.rows_of (weights_by (get_or inside 0 false) (get_or rho.at 0 0) (four_of (get_or rho.weights 0 [])))
        ++ (Needed.rows_of (weights_by (get_or inside 1 false) (get_or rho.at 1 0) (four_of (get_or rho.weights 1 []))) ++ Needed.rows_of (weights_by (get_or inside 2 false) (get_or rho.at 2 0) (four_of (get_or rho.weights 2 []))))) }
{
    let r = is_channel_ready(marks, inside[0].then(|| rho.place(0)));
    let g = is_channel_ready(marks, inside[1].then(|| rho.place(1)));
    let b = is_channel_ready(marks, inside[2].then(|| rho.place(2)));
    r & g & b
}
