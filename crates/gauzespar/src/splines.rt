// The Fresnel term, and splines over a caller's own lists: first what each call writes into its output
// lists, and then the functions that C calls. The lists come one by one, as C passes them.
#![tactic(auto, using(std::proofs::lemmas::Grind::common_steps, crate::proofs::Refusals::of_draws), unfolding(crate::proofs::Opened::splines))]

ghost use Rattle.std.specs.Prelude.{◌≡◌, [], ◌∷◌, length};
ghost use Rattle.answers.specs.Answer.{written};
ghost use Rattle.answers.specs.Refusal.{number_of};
ghost use Rattle.interpolation.specs.Integral.{cdf_of};
ghost use Rattle.gauzespar.specs.Outputs.{Tells, output, wholes};
ghost use Rattle.gauzespar.specs.Calls as Calls;

use crate::outputs::{check_sizes, misfit, told};
use answers::Refusal;
use interpolation::checks::check_rows;
use scattering::checks::check_eta;

fn write_sw(eta: f32, cosine: f32, spectrum: &mut [f32]) -> Result<(), Refusal>
    ensures { let a = Calls.sw eta cosine (length spectrum.old) in
        Tells (number_of result) a × (spectrum.new ≡ output (number_of result) a.floats spectrum.old) }
{
    if spectrum.len() != 3 {
        return Err(misfit(check_eta(eta)));
    }
    let s = scattering::sw(eta, cosine)?;
    spectrum.copy_from_slice(&<[f32; 3]>::from(s));
    Ok(())
}

fn write_weights(
    nodes: &[f32],
    x: f32,
    inside: &mut [u8],
    offset: &mut [i32],
    weights: &mut [f32],
) -> Result<(), Refusal>
    ensures { let a = Calls.weights nodes.now x (length inside.old) (length offset.old) (length weights.old) in
        Tells (number_of result) a × (inside.new ≡ output (number_of result) (Calls.inside_of a.floats ∷ []) inside.old)
        × (offset.new ≡ output (number_of result) a.wholes offset.old)
        × (weights.new ≡ output (number_of result) a.floats weights.old) }
{
    if inside.len() != 1 || offset.len() != 1 || weights.len() != 4 {
        return Err(misfit(check_rows(nodes.len())));
    }
    match interpolation::own::weights(nodes, x)? {
        Some(found) => {
            weights.copy_from_slice(&<[f32; 4]>::from(found.four));
            offset[0] = found.offset;
            inside[0] = 1;
        }
        None => inside[0] = 0,
    }
    Ok(())
}

fn write_integral(
    nodes: &[f32],
    values: &[f32],
    cdf: &mut [f32],
    sum: &mut [f32],
) -> Result<(), Refusal>
    ensures { let a = Calls.integral nodes.now values.now cdf.old (length sum.old) in
        Tells (number_of result) a × (cdf.new ≡ written (number_of result) (cdf_of nodes.now values.now) cdf.old)
        × (sum.new ≡ output (number_of result) a.floats sum.old) }
{
    if sum.len() != 1 {
        return Err(misfit(check_rows(nodes.len())));
    }
    sum[0] = interpolation::own::integrate(nodes, values, cdf)?;
    Ok(())
}

fn write_sample_2d(
    nodes1: &[f32],
    nodes2: &[f32],
    values: &[f32],
    cdf: &[f32],
    alpha: f32,
    u: f32,
    allowance: u32,
    sample: &mut [f32],
    rounds: &mut [u32],
) -> Result<(), Refusal>
    ensures { let a = Calls.sample2d nodes1.now nodes2.now values.now cdf.now alpha u allowance (length sample.old) (length rounds.old) in
        Tells (number_of result) a × (sample.new ≡ output (number_of result) a.floats sample.old)
        × (wholes rounds.new ≡ output (number_of result) a.wholes (wholes rounds.old)) }
{
    if sample.len() != 3 || rounds.len() != 1 {
        return Err(misfit(check_sizes(nodes1.len(), nodes2.len())));
    }
    match interpolation::own::sample_2d(nodes1, nodes2, values, cdf, alpha, u, allowance)? {
        Some(drawn) => {
            sample.copy_from_slice(&[drawn.position, drawn.value, drawn.density]);
            rounds[0] = drawn.rounds;
        }
        None => {
            sample[0] = 0.0;
            rounds[0] = 0;
        }
    }
    Ok(())
}

// The Fresnel term at the cosine of a direction: three equal values. Refusals: 4, 5, 9.
#[unsafe(no_mangle)]
pub extern "C" fn gauzespar_sw(eta: f32, cosine: f32, spectrum: &mut [f32]) -> u32
    ensures { let a = Calls.sw eta cosine (length spectrum.old) in
        Tells result a × (spectrum.new ≡ output result a.floats spectrum.old) }
{
    told(write_sw(eta, cosine, spectrum))
}

// Whether x lies within the nodes, and if so the offset and the four weights. Refusals: 1, 5, 6.
#[unsafe(no_mangle)]
pub extern "C" fn gauzespar_weights(
    nodes: &[f32],
    x: f32,
    inside: &mut [u8],
    offset: &mut [i32],
    weights: &mut [f32],
) -> u32
    ensures { let a = Calls.weights nodes.now x (length inside.old) (length offset.old) (length weights.old) in
        Tells result a × (inside.new ≡ output result (Calls.inside_of a.floats ∷ []) inside.old)
        × (offset.new ≡ output result a.wholes offset.old)
        × (weights.new ≡ output result a.floats weights.old) }
{
    told(write_weights(nodes, x, inside, offset, weights))
}

// The integral of the spline through the values, and its running sum up to each node. Refusals: 1,
// 5, 6.
#[unsafe(no_mangle)]
pub extern "C" fn gauzespar_integrate(
    nodes: &[f32],
    values: &[f32],
    cdf: &mut [f32],
    sum: &mut [f32],
) -> u32
    ensures { let a = Calls.integral nodes.now values.now cdf.old (length sum.old) in
        Tells result a × (cdf.new ≡ written result (cdf_of nodes.now values.now) cdf.old)
        × (sum.new ≡ output result a.floats sum.old) }
{
    told(write_integral(nodes, values, cdf, sum))
}

// A draw from a table of values: position, value, density and the rounds made; outside position 0
// and no rounds alone. Refusals: 1, 2, 5, 6, 9, 10, 13.
#[unsafe(no_mangle)]
pub extern "C" fn gauzespar_sample_2d(
    nodes1: &[f32],
    nodes2: &[f32],
    values: &[f32],
    cdf: &[f32],
    alpha: f32,
    u: f32,
    allowance: u32,
    sample: &mut [f32],
    rounds: &mut [u32],
) -> u32
    ensures { let a = Calls.sample2d nodes1.now nodes2.now values.now cdf.now alpha u allowance (length sample.old) (length rounds.old) in
        Tells result a × (sample.new ≡ output result a.floats sample.old)
        × (wholes rounds.new ≡ output result a.wholes (wholes rounds.old)) }
{
    told(write_sample_2d(
        nodes1, nodes2, values, cdf, alpha, u, allowance, sample, rounds,
    ))
}
