// `integrate_catmull_rom` of interpolation.rs.
ghost use Rattle.std.specs.Prelude.{◌≡◌, ◌+◌, ◌≤◌, ◌<◌, length};
ghost use Rattle.interpolation.specs.Integral.{segment_integral, integrate_catmull_rom, cdf_of};

use crate::slope::{slope_after, slope_before};

// The integral over the segment i.
#[tactic(auto, unfolding(crate::specs::Integral::segment_integral, crate::specs::Slope::width))]
fn segment_integral(x: &[f32], values: &[f32], i: usize) -> f32
    requires { (i + 1 < length x.now) × (length values.now ≡ length x.now) }
    ensures { result ≡ segment_integral x.now values.now i }
{
    let width = x[i + 1] - x[i];
    let f0 = values[i];
    let f1 = values[i + 1];
    let d0 = slope_before(x, i, f0, f1, |k| values[k]);
    let d1 = slope_after(x, i, f0, f1, |k| values[k]);
    ((d0 - d1) * (1.0 / 12.0) + (f0 + f1) * 0.5) * width
}

// The running sum up to each node goes to `cdf`, and the whole sum is returned. By index, since a turn
// writes the place after the segment that it reads.
pub fn integrate_catmull_rom(x: &[f32], values: &[f32], cdf: &mut [f32]) -> f32
    requires some { 1 ≤ length x.now }
    requires lengths { (length values.now ≡ length x.now) × (length cdf.old ≡ length x.now) }
    ensures { (result ≡ integrate_catmull_rom x.now values.now) × (cdf.new ≡ cdf_of x.now values.now) }
{
    let n = x.len() - 1;
    let mut sum = 0.0;
    cdf[0] = 0.0;
    for i in 0..n {
        sum = sum + segment_integral(x, values, i);
        cdf[i + 1] = sum;
    }
    sum
}
