// The inverse of a segment's integral, by Newton's method and bisection.
ghost use Rattle.std.specs.Prelude.{◌≡◌};
ghost use Rattle.interpolation.specs.Solve as Solve;

// A segment's values and slopes at its ends, and the target of the integral.
#[derive(Clone, Copy)]
pub struct Segment {
    pub f0: f32,
    pub f1: f32,
    pub d0: f32,
    pub d1: f32,
    pub u: f32,
}

// Where a round begins: its guess, and the bounds that it may not leave.
#[derive(Clone, Copy)]
pub struct Bracket {
    pub t: f32,
    pub a: f32,
    pub b: f32,
}

// What one round finds: the position and the value there, if it is the last; or where the next begins.
#[derive(Clone, Copy)]
pub enum Round {
    Last { t: f32, value: f32 },
    Next(Bracket),
}

// The position, the value there and the rounds made.
#[derive(Clone, Copy)]
pub struct Solution {
    pub t: f32,
    pub value: f32,
    pub rounds: u32,
}

// t, or the middle of a and b where t does not lie between them.
#[tactic(auto, unfolding(crate::specs::Solve::bounded_by))]
fn bounded(t: f32, a: f32, b: f32) -> f32
    ensures { result ≡ Solve.bounded_by t a b }
{
    if t >= a && t <= b { t } else { 0.5 * (a + b) }
}

impl Segment {
    // The integral up to t.
    #[tactic(auto, unfolding(crate::specs::Solve::integral_at))]
    fn integral_at(self, t: f32) -> f32
        ensures { result ≡ Solve.integral_at self t }
    {
        let f0 = self.f0;
        let f1 = self.f1;
        let d0 = self.d0;
        let d1 = self.d1;
        t * (f0
            + t * (0.5 * d0
                + t * ((1.0 / 3.0) * (-2.0 * d0 - d1) + f1 - f0
                    + t * (0.25 * (d0 + d1) + 0.5 * (f0 - f1)))))
    }

    // The value at t.
    #[tactic(auto, unfolding(crate::specs::Solve::value_at))]
    fn value_at(self, t: f32) -> f32
        ensures { result ≡ Solve.value_at self t }
    {
        let f0 = self.f0;
        let f1 = self.f1;
        let d0 = self.d0;
        let d1 = self.d1;
        f0 + t * (d0 + t * (-2.0 * d0 - d1 + 3.0 * (f1 - f0) + t * (d0 + d1 + 2.0 * (f0 - f1))))
    }

    // One round.
    #[tactic(auto, unfolding(crate::specs::Solve::round_of))]
    fn round(self, from: Bracket) -> Round
        ensures { result ≡ Solve.round_of self from }
    {
        let a = from.a;
        let b = from.b;
        let t = bounded(from.t, a, b);
        let d = self.integral_at(t) - self.u;
        let value = self.value_at(t);
        if is_last(d, a, b) {
            return Round::Last { t, value };
        }
        let next = t - d / value;
        if d < 0.0 {
            Round::Next(Bracket { t: next, a: t, b })
        } else {
            Round::Next(Bracket { t: next, a, b: t })
        }
    }

    // The first t, by sampling a linear interpolant.
    #[tactic(auto, unfolding(crate::specs::Solve::first_guess))]
    fn first_guess(self) -> f32
        ensures { result ≡ Solve.first_guess self }
    {
        let f0 = self.f0;
        let f1 = self.f1;
        let u = self.u;
        if f0 == f1 {
            return u / f0;
        }
        (f0 - elementary::sqrt(elementary::max0(f0 * f0 + 2.0 * u * (f1 - f0)))) / (f0 - f1)
    }

    // Rounds from the first guess on, until one is the last; none where the allowance is used up. The
    // loop has nothing but the number of rounds.
    #[tactic(auto, unfolding(crate::specs::Solve::solve_from, crate::specs::Solve::solve))]
    pub fn solve(self, allowance: u32) -> Option<Solution>
        ensures { result ≡ Solve.solve self allowance }
    {
        let mut from = Bracket {
            t: self.first_guess(),
            a: 0.0,
            b: 1.0,
        };
        for made in 0..allowance {
            match self.round(from) {
                Round::Last { t, value } => {
                    return Some(Solution {
                        t,
                        value,
                        rounds: made + 1,
                    });
                }
                Round::Next(next) => from = next,
            }
        }
        None
    }
}

// Whether the round with the difference d and the bounds a and b is the last. The size of d is told
// by two comparisons, which is faster than taking it.
#[tactic(auto, using(crate::proofs::Ending::ending), unfolding(crate::specs::Solve::stops))]
fn is_last(d: f32, a: f32, b: f32) -> bool
    ensures { result ≡ Solve.stops d a b }
{
    (d < 1e-6 && -1e-6 < d) || b - a < 1e-6
}
