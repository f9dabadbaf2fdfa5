// The cells of a profile that the weights of a channel on the two axes reach.
ghost use Rattle.std.specs.Prelude.{◌≡◌, true, false, cond, ℕ, ◌+◌, ◌-◌, ◌*◌, ◌≤◌, ◌<◌, length, get_or, Float};
ghost use Rattle.std.specs.Float.Ieee.{eq};
ghost use Rattle.std.specs.Float.{nan};
ghost use Rattle.elementary.specs.Notation.{lit};
ghost use Rattle.interpolation.specs.Laws.{Reach, Bounded};
ghost use Rattle.interpolation.specs.Nodes.{finite};
ghost use Rattle.interpolation.specs.Weights.{offset_of, over_four, weight_at};
ghost use Rattle.interpolation.specs.Blend.{row_of};
ghost use Rattle.bssrdf.specs.Radiance as Radiance;
ghost use Rattle.bssrdf.specs.Density as Density;

use interpolation::weights::Place;

// The four functions below have each its own test of the weights, and what they ask of a row holds only
// where its weight is not zero: a type for the row would have to hold the weight, the test and the step.

// The sum with one cell of the tensor spline, which is read only where the product of its two weights
// is not zero. Rows and radii count from 1 here.
#[tactic(auto, using(crate::proofs::Products::nonzero), unfolding(crate::specs::Radiance::add_product))]
fn add_cell(profile: &[f32], m: usize, row: usize, col: usize, p: f32, q: f32, srf: f32) -> f32
    requires finite_weights { (finite p ≡ true) × (finite q ≡ true) }
    requires row_held { eq p (lit 0) ≡ false → (1 ≤ row) × (row * m ≤ length profile.now) }
    requires col_held { eq q (lit 0) ≡ false → (1 ≤ col) × (col ≤ m) }
    ensures { result ≡ Radiance.add_product p q (get_or profile.now ((row - 1) * m + (col - 1)) nan) srf }
{
    let weight = p * q;
    if weight == 0.0 {
        return srf;
    }
    let at = (row - 1) * m + (col - 1);
    srf + weight * profile[at]
}

// The sum with the cells of one row, for the weights of a radius.
#[tactic(auto, using(crate::proofs::Cells::reading))]
fn add_row(profile: &[f32], m: usize, row: usize, radius: Place, p: f32, srf: f32) -> f32
    requires weights { (finite p ≡ true) × Bounded radius.four × Reach radius.four radius.interval m }
    requires row_held { eq p (lit 0) ≡ false → (1 ≤ row) × (row * m ≤ length profile.now) }
    ensures { result ≡ over_four (λ k. Radiance.add_product p (weight_at radius.four k) (get_or profile.now ((row - 1) * m + row_of (offset_of radius.interval) k) nan)) srf }
{
    radius.over_four(srf, |col, q, sum| {
        add_cell(profile, m, row, col, p, q, sum)
    })
}

// The sum with one cell of the density, which is read only where the radius weight q is not zero.
#[tactic(auto, unfolding(crate::specs::Density::add_term))]
fn add_entry(profile: &[f32], m: usize, row: usize, col: usize, p: f32, q: f32, v: f32) -> f32
    requires row_held { (1 ≤ row) × (row * m ≤ length profile.now) }
    requires col_held { eq q (lit 0) ≡ false → (1 ≤ col) × (col ≤ m) }
    ensures { result ≡ Density.add_term p q (get_or profile.now ((row - 1) * m + (col - 1)) nan) v }
{
    if q == 0.0 {
        return v;
    }
    let at = (row - 1) * m + (col - 1);
    v + profile[at] * p * q
}

// The sum with the cells of one row, which is read only where the albedo weight p is not zero.
#[tactic(auto, using(crate::proofs::Cells::reading))]
fn add_entries(profile: &[f32], m: usize, row: usize, radius: Place, p: f32, v: f32) -> f32
    requires reach { Reach radius.four radius.interval m }
    requires row_held { eq p (lit 0) ≡ false → (1 ≤ row) × (row * m ≤ length profile.now) }
    ensures { result ≡ cond (eq p (lit 0)) v (over_four (λ k. Density.add_term p (weight_at radius.four k) (get_or profile.now ((row - 1) * m + row_of (offset_of radius.interval) k) nan)) v) }
{
    if p == 0.0 {
        return v;
    }
    radius.over_four(v, |col, q, sum| {
        add_entry(profile, m, row, col, p, q, sum)
    })
}

// A profile with m radii in a row, and the place of a channel on each axis, whose weights reach cells
// of the profile.
#[derive(Clone, Copy)]
pub struct Cells<'a> {
    pub profile: &'a [f32],
    pub m: usize,
    pub rho: Place,
    pub radius: Place,
    pub ghost readable: { Radiance.Readable profile.now m rho.interval rho.four radius.interval radius.four },
}

impl Cells<'_> {
    // The tensor spline. Beside `profile_sum`, since their steps differ.
    #[tactic(auto, using(crate::proofs::Cells::reading))]
    pub fn tensor(self) -> f32
        ensures { result ≡ Radiance.tensor self.entry.profile.now self.entry.m (offset_of self.entry.rho.interval) self.entry.rho.four (offset_of self.entry.radius.interval) self.entry.radius.four }
    {
        let Cells {
            profile,
            m,
            rho,
            radius,
        } = self;
        rho.over_four(0.0, |row, p, sum| {
            add_row(profile, m, row, radius, p, sum)
        })
    }

    // The sum of the density.
    #[tactic(auto, using(crate::proofs::Cells::reading))]
    pub fn profile_sum(self) -> f32
        ensures { result ≡ Density.profile_sum self.entry.profile.now self.entry.m (offset_of self.entry.rho.interval) self.entry.rho.four (offset_of self.entry.radius.interval) self.entry.radius.four }
    {
        let Cells {
            profile,
            m,
            rho,
            radius,
        } = self;
        rho.over_four(0.0, |row, p, sum| {
            add_entries(profile, m, row, radius, p, sum)
        })
    }
}
