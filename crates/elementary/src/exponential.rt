// E, the exponential of an `f32`, by a series in `f64`.
ghost use Rattle.std.specs.Prelude.{◌≡◌, map, length, [], ◌∷◌};
ghost use Rattle.std.specs.Float.{Float};
ghost use Rattle.std.specs.Simd.Lanes.{zip2};
ghost use Rattle.elementary.specs.Notation.{◌⊞◌, ◌⊠◌, ◌⧄◌, one64};
ghost use Rattle.elementary.specs.Exponential as Exponential;

use super::constants::infinity;
use super::convert::{narrow, widen};
use std::simd::prelude::*;

// One term more of the series at two values, whose operations go together.
#[inline(always)]
fn term(y: f64x2, k: f64, p: f64x2) -> f64x2
    ensures { result ≡ zip2 (λ (y p : Float). one64 ⊞ y ⧄ k ⊠ p) y p }
{
    f64x2::splat(1.0) + y / f64x2::splat(k) * p
}

// p to the 256th power, by eight squarings: so many turns are all that the loop has.
#[tactic(auto, using(crate::proofs::Pairs::squares))]
fn power_256(p: f64x2) -> f64x2
    ensures { result ≡ map (Exponential.squared 8) p }
{
    let mut q = p;
    for _ in 0..8u32 {
        q = q * q;
    }
    q
}

// E's series at two values, which is not yet rounded: 1 + y + y^2 / 2 + .. to the tenth power, from
// the innermost term out, to the 256th power. The terms are written out, since the compiler then
// multiplies in place of dividing by 8, 4, 2 and 1, which gives the same bits. In a loop over k it
// divides by all ten, and `exp` takes a sixth longer.
#[tactic(auto, using(crate::proofs::Pairs::terms_written), unfolding(crate::specs::Exponential::series))]
fn two_series(a: f32, b: f32) -> [f64; 2]
    ensures { result ≡ Exponential.series a ∷ Exponential.series b ∷ [] }
{
    let y = f64x2::from_array([widen(a), widen(b)]) / f64x2::splat(256.0);
    let p = f64x2::splat(1.0);
    let p = term(y, 10.0, p);
    let p = term(y, 9.0, p);
    let p = term(y, 8.0, p);
    let p = term(y, 7.0, p);
    let p = term(y, 6.0, p);
    let p = term(y, 5.0, p);
    let p = term(y, 4.0, p);
    let p = term(y, 3.0, p);
    let p = term(y, 2.0, p);
    let p = term(y, 1.0, p);
    power_256(p).to_array()
}

// The series at x, as the first of two.
fn series(x: f32) -> f64
    ensures { result ≡ Exponential.series x }
{
    let [p, _] = two_series(x, x);
    p
}

// e to the power x, by the series at x.
#[tactic(auto, using(crate::proofs::Values::testing), unfolding(crate::specs::Exponential::exp))]
fn exp_of(x: f32, p: f64) -> f32
    requires { p ≡ Exponential.series x }
    ensures { result ≡ Exponential.exp x }
{
    if x.is_nan() {
        return x;
    }
    if x < -104.0 {
        return 0.0;
    }
    if x >= 89.0 {
        return infinity();
    }
    narrow(p)
}

// e to the power x.
pub fn exp(x: f32) -> f32
    ensures { result ≡ Exponential.exp x }
{
    exp_of(x, series(x))
}

// The series at each element, two at a time. They are written by index, since a proof knows no
// element of what `chunks_mut` lends.
#[tactic(auto, using(crate::proofs::Mapped::filling))]
fn series_each(xs: &[f32], room: &mut [f64])
    requires { length room.old ≡ length xs.now }
    ensures { room.new ≡ map Exponential.series xs.now }
{
    let n = xs.len();
    for i in 0..n / 2 {
        let [p, q] = two_series(xs[2 * i], xs[2 * i + 1]);
        room[2 * i] = p;
        room[2 * i + 1] = q;
    }
    if n % 2 == 1 {
        room[n - 1] = series(xs[n - 1]);
    }
}

// By the series of each, which is read by index: of what `zip` over `iter_mut` lends a proof knows nothing.
#[tactic(auto, using(crate::proofs::Mapped::mapping))]
fn exp_of_each(xs: &mut [f32], room: &[f64])
    requires { room.now ≡ map Exponential.series xs.old }
    ensures { xs.new ≡ map Exponential.exp xs.old }
{
    for (i, x) in xs.iter_mut().enumerate() {
        *x = exp_of(*x, room[i]);
    }
}

// e to the power of each element, in its place. It takes half the time of as many calls of `exp`;
// `room` is as long a list of the caller's, where the series stand, since nothing here takes memory.
pub fn exp_each(xs: &mut [f32], room: &mut [f64])
    requires { length room.old ≡ length xs.old }
    ensures { (xs.new ≡ map Exponential.exp xs.old) × (room.new ≡ map Exponential.series xs.old) }
{
    series_each(xs, room);
    exp_of_each(xs, room)
}
