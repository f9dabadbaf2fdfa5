// Check 6 (specification, section 9.1), and lists of nodes that pass it.
ghost use Rattle.std.specs.Prelude.{true, ◌≡◌, ◌+◌, ◌≤◌, length, IfOk};
ghost use Rattle.std.specs.List.{count_by, range_with_len};
ghost use Rattle.answers.specs.Refusal.{number_of};
ghost use Rattle.interpolation.specs.Checks.{check6};
ghost use Rattle.interpolation.specs.Nodes.{finite, rises, increasing, nodes_ok};

use crate::eights::count_below;
use answers::Refusal;
use std::simd::prelude::*;

// A list of two nodes or more that check 6 passes. How many they are at most, which a `Place` needs, is
// no part of it: check 6 is made of lists of any length.
#[derive(Clone, Copy)]
pub struct Nodes<'a> {
    pub list: &'a [f32],
    pub ghost some: { 2 ≤ length list.now },
    pub ghost accepted: { nodes_ok list.now ≡ true },
}

impl<'a> Nodes<'a> {
    // Check 6, and the nodes where they pass it.
    #[tactic(auto, unfolding(answers::specs::Refusal::number, answers::specs::Refusal::number_of, crate::specs::Checks::check6))]
    pub fn check(list: &'a [f32]) -> Result<Nodes<'a>, Refusal>
        requires { 2 ≤ length list.now }
        ensures number { number_of result ≡ check6 list.now }
        ensures same { IfOk result (λ nodes. nodes.list ≡ list.entry) }
    {
        if nodes_ok(list) {
            Ok(Nodes { list })
        } else {
            Err(Refusal::Nodes)
        }
    }
}

// How many of the eight nodes from i on are below the next.
fn eight_rise(nodes: &[f32], i: usize) -> usize
    requires { i + 9 ≤ length nodes.now }
    ensures { (result ≡ count_by (rises nodes.now) (range_with_len i 8)) × (result ≤ 8) }
{
    let here = f32x8::from_slice(&nodes[i..]);
    let next = f32x8::from_slice(&nodes[i + 1..]);
    here.simd_lt(next).to_bitmask().count_ones() as usize
}

// Whether each node is below the next: as many are as there are pairs.
#[tactic(auto, using(crate::proofs::Counting::rising))]
fn is_increasing(nodes: &[f32]) -> bool
    requires { 1 ≤ length nodes.now }
    ensures { result ≡ increasing nodes.now }
{
    let n = nodes.len() - 1;
    let rising = count_below(n, |i| eight_rise(nodes, i), |i| nodes[i] < nodes[i + 1]);
    rising == n
}

// Check 6. Where each node is below the next and the last minus the first is finite, every node is.
#[tactic(auto, using(crate::proofs::Finite::checking))]
pub fn nodes_ok(nodes: &[f32]) -> bool
    requires { 2 ≤ length nodes.now }
    ensures { result ≡ nodes_ok nodes.now }
{
    let span = nodes[nodes.len() - 1] - nodes[0];
    is_increasing(nodes) && span.is_finite()
}
