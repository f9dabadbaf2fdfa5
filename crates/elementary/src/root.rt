// Q, the square root of an `f32`: of one value by a root of whole numbers, of a list by the
// machine's instruction.
ghost use Rattle.std.specs.Prelude.{◌≡◌, ℕ, ◌+◌, ◌^◌, ◌<◌, ◌≤◌, map};
ghost use Rattle.elementary.specs.Root as Root;
ghost use Rattle.elementary.specs.Root.{nearest_root, root_of, Root};
ghost use Rattle.elementary.specs.Units.{Normalised};

use super::bits::double_to_bits;
use super::constants::{infinity, nan};
use super::lists::map_in_place;
use super::normal::Normal;

// A number of which the root is taken: it has 48 digits at most, and its root 24.
#[derive(Clone, Copy)]
struct Radicand {
    n: u64,
    ghost some: { 0 < n },
    ghost few: { n + 2 ^ 24 ≤ 2 ^ 48 },
}

impl Radicand {
    // The whole number nearest to the root of n, a binary digit at a time, by its place d.
    fn by_digits(self) -> u64
        ensures { result ≡ nearest_root self.n }
    {
        let mut g = 0u64;
        for d in (0..24u64).rev() {
            let h = g + (1u64 << d);
            let odd = 2 * h - 1;
            if odd * odd < 4 * self.n {
                g = h;
            }
        }
        g
    }

    // As a rule the whole number nearest to the root of n, and nothing rests on it. The sum with
    // 2 ^ 52 has that number for its last 52 digits.
    fn guess(self) -> u64 {
        double_to_bits(((self.n as i64) as f64).sqrt() + 4503599627370496.0) % 0x10_0000_0000_0000
    }

    // The whole number nearest to the root of n: the guess g where 4 * n lies between the squares
    // of 2 * g - 1 and 2 * g + 1, which differ by 8 * g, and else by the digits.
    #[tactic(auto, using(crate::proofs::Squares::certified_is))]
    fn root(self) -> u64
        ensures { result ≡ nearest_root self.n }
    {
        let n = self.n;
        let g = self.guess();
        if g < 0x200_0000 {
            let above = (2 * g + 1) * (2 * g + 1);
            if 4 * n < above {
                if above < 4 * n + 8 * g {
                    return g;
                }
            }
        }
        self.by_digits()
    }
}

impl Normal {
    // The root of the value: n, which is q with 23 or 24 zeros, has a root of 24 digits.
    fn root(self) -> f32
        ensures { (a : ℕ) → Normalised a self.q self.size → result ≡ root_of a }
    {
        let n = (self.q as u64) << (23 + self.size % 2);
        let r = Radicand { n }.root();
        f32::from_bits((51 + self.size / 2) * 0x80_0000 + (r as u32))
    }
}

// The square root of x: NaN or below zero gives NaN; a zero of either sign and +infinity give
// themselves; else the nearest `f32` to the exact root.
pub fn sqrt(x: f32) -> f32
    ensures { Root x result }
{
    if x.is_nan() {
        return x;
    }
    if x == 0.0 {
        return x;
    }
    if x < 0.0 {
        return nan();
    }
    if x == infinity() {
        return x;
    }
    Normal::new(x).root()
}

// The same root by the machine's instruction, which is the faster of the two.
#[tactic(auto, using(crate::proofs::Instruction::instruction))]
fn instruction(x: f32) -> f32
    ensures { result ≡ Root.sqrt x }
{
    x.sqrt()
}

// The square root of each element, in its place.
pub fn sqrt_each(xs: &mut [f32])
    ensures { xs.new ≡ map Root.sqrt xs.old }
{
    map_in_place(xs, instruction)
}
