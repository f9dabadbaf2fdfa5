// `find_interval` of pbrt.rs over a node list.
ghost use Rattle.std.specs.Prelude.{true, ◌≡◌, ◌+◌, ◌≤◌, length};
ghost use Rattle.std.specs.List.{count_by, range_with_len};
ghost use Rattle.interpolation.specs.Interval.{at_most, node_interval};
ghost use Rattle.interpolation.specs.Nodes.{nodes_ok};

use crate::eights::count_below;
use crate::nodes::Nodes;
use std::simd::prelude::*;

// How many of the eight nodes from i on are at or below x.
fn eight_at_most(nodes: &[f32], i: usize, x: f32) -> usize
    requires { i + 8 ≤ length nodes.now }
    ensures { (result ≡ count_by (at_most nodes.now x) (range_with_len i 8)) × (result ≤ 8) }
{
    let eight = f32x8::from_slice(&nodes[i..]);
    eight.simd_le(f32x8::splat(x)).to_bitmask().count_ones() as usize
}

// The interval of the nodes that holds x. They increase, so it is one less than the number of nodes
// at or below x. The last node is not counted, since no interval begins there. A function of its own
// over a slice, since a proof knows that a parameter's elements are floats, and of a field's not.
#[tactic(auto, using(crate::proofs::Counting::counting), unfolding(crate::specs::Interval::at_most))]
fn interval_of(nodes: &[f32], x: f32) -> usize
    requires some { 2 ≤ length nodes.now }
    requires accepted { nodes_ok nodes.now ≡ true }
    ensures { result ≡ node_interval nodes.now x }
{
    let n = nodes.len() - 1;
    count_below(n, |i| eight_at_most(nodes, i, x), |i| nodes[i] <= x).saturating_sub(1)
}

impl Nodes<'_> {
    // The interval that holds x, from 0 to the number of nodes less 2.
    pub fn find_interval(self, x: f32) -> usize
        ensures { result ≡ node_interval self.entry.list.now x }
    {
        interval_of(self.list, x)
    }
}
