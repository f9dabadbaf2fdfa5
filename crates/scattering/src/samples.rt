// What the sums of beam diffusion share: the samples of depth, and distances.
#![tactic(auto, unfolding(crate::specs::Samples::n_samples, crate::specs::Samples::sample_ln, crate::specs::Samples::sample_logs))]

ghost use Rattle.std.specs.Prelude.{◌≡◌, map, length};
ghost use Rattle.elementary.specs.Exponential.{exp};
ghost use Rattle.scattering.specs.Samples as Samples;

use elementary::lists::{fill_by, map_into};

// The number of samples of a sum.
pub const N_SAMPLES: usize = 100;
// The same as a float.
pub const SAMPLES: f32 = N_SAMPLES as f32;

// The logarithm at the sample i. A `u16` is a float with no rounding.
fn sample_ln(i: u16) -> f32
    ensures { result ≡ Samples.sample_ln i }
{
    elementary::ln(1.0 - (i as f32 + 0.5) / SAMPLES)
}

// The logarithms at all samples. They are the same for every sum, so a caller that needs many sums
// makes them once.
#[derive(Clone, Copy)]
pub struct SampleLogs {
    pub values: [f32; N_SAMPLES],
    pub ghost as_defined: { values ≡ Samples.sample_logs },
}

impl SampleLogs {
    // Inline, so that the values are made where they stay: else they are copied there, by a function of C.
    #[inline(always)]
    pub fn new() -> SampleLogs
        ensures { result.values ≡ Samples.sample_logs }
    {
        let mut values = [0.0f32; N_SAMPLES];
        fill_by(&mut values, |i| sample_ln(i as u16));
        SampleLogs { values }
    }
}

// The distances of points at the depths z from one at the radius r.
pub fn distances(r: f32, z: &[f32], out: &mut [f32])
    requires { length out.old ≡ length z.now }
    ensures { out.new ≡ map (Samples.distance r) z.now }
{
    let square = r * r;
    map_into(z, out, |z| square + z * z);
    elementary::sqrt_each(out)
}

// The exponential of each element, in its place.
pub fn exponentials(xs: &mut [f32; N_SAMPLES])
    ensures { xs.new ≡ map exp xs.old }
{
    let mut room = [0.0f64; N_SAMPLES];
    elementary::exp_each(xs, &mut room)
}
