// Three channels on the two axes of a table: on each axis an array of three arrays of four weights.
ghost use Rattle.std.specs.Prelude.{◌≡◌, ℕ, ◌+◌, ◌≤◌, ◌<◌, length, get_or, ◌&&◌, [], ◌∷◌};
ghost use Rattle.std.specs.Float.{nan};
ghost use Rattle.interpolation.specs.Interval.{node_interval};
ghost use Rattle.interpolation.specs.Weights.{four_of, within};
ghost use Rattle.bssrdf.specs.Coefficients.{optical, mean_free_paths};
ghost use Rattle.bssrdf.specs.Axes.{three_of, radius_values, three_weights};

use crate::coefficients::{OpticalRadius, WorldRadius};
use interpolation::nodes::Nodes;
use interpolation::weights::{Four, Place, four_at, is_within};
use scattering::Spectrum;

// The optical radii of the channels.
pub fn optical_radii(sigma_t: Spectrum, x: WorldRadius) -> [OpticalRadius; 3]
    ensures { result ≡ optical x sigma_t.r ∷ optical x sigma_t.g ∷ optical x sigma_t.b ∷ [] }
{
    <[f32; 3]>::from(sigma_t).map(|s| x.optical(s))
}

// And these as values on the radius axis.
pub fn radius_values(xs: [OpticalRadius; 3]) -> [f32; 3]
    ensures { result ≡ radius_values xs }
{
    xs.map(|x| x.mean_free_paths())
}

// Whether a channel is inside: its albedo and its optical radius are.
pub fn is_inside(rho_samples: &[f32], radius_samples: &[f32], rho: f32, x: OpticalRadius) -> bool
    requires { (2 ≤ length rho_samples.now) × (2 ≤ length radius_samples.now) }
    ensures { result ≡ (within rho_samples.now rho && within radius_samples.now (mean_free_paths x)) }
{
    is_within(rho_samples, rho) & is_within(radius_samples, x.mean_free_paths())
}

// The same of three channels, whose values stand in arrays of three, as their weights do.
pub fn are_inside(
    rho_samples: &[f32],
    radius_samples: &[f32],
    rhos: [f32; 3],
    xs: [OpticalRadius; 3],
) -> [bool; 3]
    requires { (2 ≤ length rho_samples.now) × (2 ≤ length radius_samples.now) }
    ensures { result ≡ three_of (λ k. within rho_samples.now (get_or rhos k nan) && within radius_samples.now (get_or (radius_values xs) k nan)) }
{
    [
        is_inside(rho_samples, radius_samples, rhos[0], xs[0]),
        is_inside(rho_samples, radius_samples, rhos[1], xs[1]),
        is_inside(rho_samples, radius_samples, rhos[2], xs[2]),
    ]
}

// The weights of three values, each in its interval: an array of three arrays of four (specification,
// section 15).
#[tactic(auto, unfolding(crate::specs::Axes::three_weights))]
pub fn three_weights(nodes: &[f32], xs: [f32; 3], at: [usize; 3]) -> [[f32; 4]; 3]
    requires { (k : ℕ) → k < 3 → get_or at k 0 + 1 < length nodes.now }
    ensures { result ≡ three_weights nodes.now xs at }
{
    [
        four_at(nodes, xs[0], at[0]).into(),
        four_at(nodes, xs[1], at[1]).into(),
        four_at(nodes, xs[2], at[2]).into(),
    ]
}

// Where three values lie on an axis: the interval of each, and its four weights. The weights are the
// array of three arrays of four of the specification's section 15.
#[derive(Clone, Copy)]
pub struct Axis {
    pub at: [usize; 3],
    pub weights: [[f32; 4]; 3],
    pub ghost small: { (k : ℕ) → k < 3 → get_or at k 0 ≤ 0x7fff_ffff },
}

impl Axis {
    // The three searches come first, so that one does not wait for another's weights.
    #[inline(always)]
    #[tactic(auto, using(interpolation::proofs::Bisection::bounding))]
    pub fn new(nodes: Nodes<'_>, xs: [f32; 3]) -> Axis
        requires { length nodes.list.now ≤ 0x8000_0000 }
        ensures at { result.at ≡ three_of (λ k. node_interval nodes.entry.list.now (get_or xs k nan)) }
        ensures weights { result.weights ≡ three_weights nodes.entry.list.now xs result.at }
    {
        let at = xs.map(|x| nodes.find_interval(x));
        let weights = three_weights(nodes.list, xs, at);
        Axis { at, weights }
    }

    // The place of the value k.
    pub fn place(self, k: usize) -> Place
        requires { k < 3 }
        ensures interval { result.interval ≡ get_or self.at k 0 }
        ensures four { result.four ≡ four_of (get_or self.weights k []) }
    {
        Place {
            interval: self.at[k],
            four: Four::from(self.weights[k]),
        }
    }
}
