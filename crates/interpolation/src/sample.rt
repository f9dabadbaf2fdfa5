// `sample_catmull_rom_2d` of interpolation.rs.
ghost use Rattle.std.specs.Prelude.{◌≡◌, ◌+◌, ◌*◌, ◌≤◌, ◌<◌, length};
ghost use Rattle.interpolation.specs.Weights.{offset_of};
ghost use Rattle.interpolation.specs.Sample as Spec;

use crate::blend::Blend;
use crate::nodes::Nodes;
use crate::slope::{slope_after, slope_before};
use crate::solve::Segment;
use crate::weights::is_within;
use answers::Refusal;

// The position, the value there, the density and the rounds made.
#[derive(Clone, Copy, Debug, PartialEq)]
pub struct Sample {
    pub position: f32,
    pub value: f32,
    pub density: f32,
    pub rounds: u32,
}

// The segment k of the blended values, with u as the target of the whole integral.
#[tactic(auto, unfolding(crate::specs::Slope::width, crate::specs::Sample::segment_at))]
fn segment_at(nodes: &[f32], values: Blend<'_>, cdf: Blend<'_>, u: f32, k: usize) -> Segment
    requires segment { k + 1 < length nodes.now }
    requires columns { (values.m ≡ length nodes.now) × (cdf.m ≡ length nodes.now) }
    requires one_place { cdf.place ≡ values.place }
    ensures { result ≡ Spec.segment_at nodes.now values.entry.table.now cdf.entry.table.now (offset_of values.entry.place.interval) values.entry.place.four u k }
{
    let f0 = values.interpolate(k);
    let f1 = values.interpolate(k + 1);
    let d0 = slope_before(nodes, k, f0, f1, |i| values.interpolate(i));
    let d1 = slope_after(nodes, k, f0, f1, |i| values.interpolate(i));
    let rest = (u - cdf.interpolate(k)) / (nodes[k + 1] - nodes[k]);
    Segment {
        f0,
        f1,
        d0,
        d1,
        u: rest,
    }
}

// The draw from the blended values, whose blended integrals are in `cdf`.
#[tactic(auto, using(crate::proofs::Rows::reading), unfolding(crate::specs::Slope::width, crate::specs::Sample::draw, crate::specs::Sample::drawn))]
pub fn draw(
    nodes: &[f32],
    values: Blend<'_>,
    cdf: Blend<'_>,
    u: f32,
    allowance: u32,
) -> Result<Sample, Refusal>
    requires some { 2 ≤ length nodes.now }
    requires columns { (values.m ≡ length nodes.now) × (cdf.m ≡ length nodes.now) }
    requires one_place { cdf.place ≡ values.place }
    ensures { result ≡ Spec.draw nodes.now values.entry.table.now cdf.entry.table.now (record { offset = offset_of values.entry.place.interval; four = values.entry.place.four }) u allowance }
{
    let maximum = cdf.interpolate(nodes.len() - 1);
    let target = u * maximum;
    let k = cdf.find_interval(target);
    let segment = segment_at(nodes, values, cdf, target, k);
    let found = segment.solve(allowance).ok_or(Refusal::Exhausted)?;
    let x0 = nodes[k];
    Ok(Sample {
        position: x0 + (nodes[k + 1] - x0) * found.t,
        value: found.value,
        density: found.value / maximum,
        rounds: found.rounds,
    })
}

// A draw from the table of values, whose integrals are in `cdf`: alpha picks the rows, u the place.
// None where alpha is outside the first list. The two node lists and the two tables stay parameters,
// as in the Rust: a struct of them would be made here alone, and taken apart again.
#[tactic(auto, unfolding(crate::specs::Sample::sample_catmull_rom_2d, crate::specs::Weights::catmull_rom_weights, crate::specs::Sample::draw_from))]
pub fn sample_catmull_rom_2d(
    nodes1: Nodes<'_>,
    nodes2: &[f32],
    values: &[f32],
    cdf: &[f32],
    alpha: f32,
    u: f32,
    allowance: u32,
) -> Result<Option<Sample>, Refusal>
    requires sizes { (length nodes1.list.now ≤ 0x8000_0000) × (2 ≤ length nodes2.now) }
    requires values_length { length values.now ≡ length nodes1.list.now * length nodes2.now }
    requires cdf_length { length cdf.now ≡ length nodes1.list.now * length nodes2.now }
    ensures { result ≡ Spec.sample_catmull_rom_2d nodes1.entry.list.now nodes2.now values.now cdf.now alpha u allowance }
{
    if !is_within(nodes1.list, alpha) {
        return Ok(None);
    }
    let place = nodes1.place(alpha);
    let m = nodes2.len();
    let values = Blend {
        table: values,
        m,
        place,
    };
    let cdf = Blend {
        table: cdf,
        m,
        place,
    };
    Ok(Some(draw(nodes2, values, cdf, u, allowance)?))
}
