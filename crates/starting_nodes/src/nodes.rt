// The nodes that `compute_beam_diffusion_bssrdf` of bssrdf.rs chooses.
ghost use Rattle.std.specs.Prelude.{◌≡◌, ◌≤◌, length};
ghost use Rattle.elementary.specs.Lists.{list_of};
ghost use Rattle.interpolation.specs.Checks.{max_rows};
ghost use Rattle.starting_nodes.specs.Nodes as Nodes;
ghost use Rattle.starting_nodes.specs.Nodes.{«1·2», eight};

use elementary::lists::fill_by;

// The radii: 0, 0.0025, and then each the former times 1.2. By index, since each is taken from the
// one before in the same list.
#[tactic(auto, using(elementary::proofs::Filled::fills_all), unfolding(crate::specs::Nodes::radius_sample))]
pub fn radius_nodes(radius_samples: &mut [f32])
    requires { 2 ≤ length radius_samples.old }
    ensures { radius_samples.new ≡ list_of (length radius_samples.old) (Nodes.radius_sample «1·2») }
{
    let m = radius_samples.len();
    radius_samples[0] = 0.0;
    radius_samples[1] = 0.0025;
    for j in 2..m {
        radius_samples[j] = radius_samples[j - 1] * 1.2;
    }
}

// The albedos: evenly spaced exponents, from 0 to 1.
#[tactic(auto, unfolding(crate::specs::Nodes::rho_sample, interpolation::specs::Checks::max_rows))]
pub fn rho_nodes(rho_samples: &mut [f32])
    requires { length rho_samples.old ≤ max_rows }
    ensures { rho_samples.new ≡ list_of (length rho_samples.old) (Nodes.rho_sample eight (length rho_samples.old)) }
{
    let n = rho_samples.len() as u16;
    let last = n as f32 - 1.0;
    let scale = 1.0 - elementary::exp(-8.0);
    fill_by(
        rho_samples,
        |i| (1.0 - elementary::exp(-8.0 * i as u16 as f32 / last)) / scale,
    );
}
