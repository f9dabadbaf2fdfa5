// The columns of a table, blended over four rows, as `interpolate` of `sample_catmull_rom_2d` does.
ghost use Rattle.std.specs.Prelude.{◌≡◌, false, ◌+◌, ◌-◌, ◌*◌, ◌≤◌, ◌<◌, length};
ghost use Rattle.std.specs.Float.Ieee.{eq};
ghost use Rattle.elementary.specs.Notation.{lit};
ghost use Rattle.interpolation.specs.Weights.{offset_of};
ghost use Rattle.interpolation.specs.Blend.{InTable, add_row, interpolate, blend_interval};

use crate::weights::Place;

// A table of m columns, blended by the weights of a place among its rows, of which those of nonzero
// weight lie within it.
#[derive(Clone, Copy)]
pub struct Blend<'a> {
    pub table: &'a [f32],
    pub m: usize,
    pub place: Place,
    pub ghost in_table: { InTable table.now m place.interval place.four },
}

// The value with one row's part, which is read only where the weight w is not zero. Rows count
// from 1 here. Row and weight are another at each step, so no type holds the arguments.
#[tactic(auto, unfolding(crate::specs::Blend::add_row))]
fn add_row(table: &[f32], m: usize, row: usize, col: usize, w: f32, value: f32) -> f32
    requires col_held { col < m }
    requires row_held { eq w (lit 0) ≡ false → (1 ≤ row) × (row * m ≤ length table.now) }
    ensures { result ≡ add_row table.now m (row - 1) col w value }
{
    if w == 0.0 {
        return value;
    }
    let at = (row - 1) * m + col;
    value + table[at] * w
}

impl Blend<'_> {
    // The blend of a column.
    #[tactic(auto, using(crate::proofs::Rows::reading))]
    pub fn interpolate(self, col: usize) -> f32
        requires { col < self.m }
        ensures { result ≡ interpolate self.entry.table.now self.entry.m (offset_of self.entry.place.interval) self.entry.place.four col }
    {
        let Blend { table, m, place } = self;
        place.over_four(0.0, |row, w, value| add_row(table, m, row, col, w, value))
    }

    // `find_interval` over the blended columns: the interval that holds u, from 0 to m less 2. A loop
    // by hand, since there is no list to search: a column is blended when the search looks at it.
    #[tactic(auto, using(crate::proofs::Bisection::turning), unfolding(crate::specs::Blend::blend_at_most, crate::specs::Blend::blend_interval, crate::specs::Interval::find_interval))]
    pub fn find_interval(self, u: f32) -> usize
        requires { 2 ≤ self.m }
        ensures { result ≡ blend_interval self.entry.table.now self.entry.m (offset_of self.entry.place.interval) self.entry.place.four u }
    {
        let m = self.m;
        let mut first = 0usize;
        let mut len = m;
        while len > 0 {
            let half = len / 2;
            let middle = first + half;
            if self.interpolate(middle) <= u {
                first = middle + 1;
                len -= half + 1;
            } else {
                len = half;
            }
        }
        first.saturating_sub(1).min(m - 2)
    }
}
