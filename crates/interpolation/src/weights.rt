// `catmull_rom_weights` of interpolation.rs.
ghost use Rattle.std.specs.Prelude.{true, ℕ, ◌≡◌, ◌+◌, ◌≤◌, ◌<◌, length};
ghost use Rattle.interpolation.specs.Interval.{node_interval};
ghost use Rattle.interpolation.specs.Weights as Spec;
ghost use Rattle.interpolation.specs.Weights.{offset_of, weight_at};

use crate::nodes::Nodes;

// The weights of four neighbouring nodes.
#[derive(Clone, Copy, Debug, PartialEq)]
pub struct Four {
    pub w0: f32,
    pub w1: f32,
    pub w2: f32,
    pub w3: f32,
}

impl From<Four> for [f32; 4] {
    ghost from_gives = { λ f ws. ws ≡ Spec.list_of_four f };

    // In their order.
    fn from(f: Four) -> [f32; 4] {
        [f.w0, f.w1, f.w2, f.w3]
    }
}

impl From<[f32; 4]> for Four {
    ghost from_gives = { λ ws f. f ≡ Spec.four_of ws };

    // From their order.
    fn from(ws: [f32; 4]) -> Four {
        Four {
            w0: ws[0],
            w1: ws[1],
            w2: ws[2],
            w3: ws[3],
        }
    }
}

// Where a value lies among nodes, which are at most 2^31: its interval, and the weights of the four
// nodes around it.
#[derive(Clone, Copy)]
pub struct Place {
    pub interval: usize,
    pub four: Four,
    pub ghost small: { interval ≤ 0x7fff_ffff },
}

impl Place {
    // One step after the other for the four nodes: each is given the number of its node, counted from
    // 1, that node's weight, and what the step before it gave.
    pub fn over_four<V, F: Fn(usize, f32, V) -> V>(self, start: V, step: F) -> V
        requires { (k node : ℕ) (v : V) → k < 4 → node ≡ self.interval + k → F.pre step node (weight_at self.four k) v }
        ensures { (s : ℕ → V → V) → ((k node : ℕ) (v w : V) → k < 4 → node ≡ self.interval + k → F.post step node (weight_at self.four k) v w → w ≡ s k v) → result ≡ Spec.over_four s start }
    {
        let Place { interval: i, four } = self;
        let v0 = step(i, four.w0, start);
        let v1 = step(i + 1, four.w1, v0);
        let v2 = step(i + 2, four.w2, v1);
        step(i + 3, four.w3, v2)
    }
}

// The offset, which is the first of the four nodes and may be -1, and their weights.
#[derive(Clone, Copy, Debug, PartialEq)]
pub struct Weights {
    pub offset: i32,
    pub four: Four,
}

// The weights in the interval i.
#[tactic(auto, unfolding(crate::specs::Weights::four_at, crate::specs::Weights::first_part, crate::specs::Weights::last_part))]
pub fn four_at(nodes: &[f32], x: f32, i: usize) -> Four
    requires { i + 1 < length nodes.now }
    ensures { result ≡ Spec.four_at nodes.now x i }
{
    let x0 = nodes[i];
    let x1 = nodes[i + 1];
    let t = (x - x0) / (x1 - x0);
    let t2 = t * t;
    let t3 = t2 * t;
    let mut w1 = 2.0 * t3 - 3.0 * t2 + 1.0;
    let mut w2 = -2.0 * t3 + 3.0 * t2;
    let mut w0 = 0.0;
    let mut w3 = 0.0;
    if i > 0 {
        let p = (t3 - 2.0 * t2 + t) * (x1 - x0) / (x1 - nodes[i - 1]);
        w0 = -p;
        w2 = w2 + p;
    } else {
        let p = t3 - 2.0 * t2 + t;
        w1 = w1 - p;
        w2 = w2 + p;
    }
    if i + 2 < nodes.len() {
        let p = (t3 - t2) * (x1 - x0) / (nodes[i + 2] - x0);
        w1 = w1 - p;
        w3 = p;
    } else {
        let p = t3 - t2;
        w1 = w1 - p;
        w2 = w2 + p;
    }
    Four { w0, w1, w2, w3 }
}

// Whether x lies within the ends of the nodes, which are any list of two or more; a NaN does not.
#[tactic(auto, unfolding(crate::specs::Weights::within))]
pub fn is_within(nodes: &[f32], x: f32) -> bool
    requires { 2 ≤ length nodes.now }
    ensures { result ≡ Spec.within nodes.now x }
{
    nodes[0] <= x && x <= nodes[nodes.len() - 1]
}

// i - 1, as a signed number. By hand, since it is -1 at 0.
#[tactic(auto, unfolding(crate::specs::Weights::offset_of))]
fn offset_of(i: usize) -> i32
    requires { i ≤ 0x7fff_ffff }
    ensures { result ≡ offset_of i }
{
    if i == 0 { -1 } else { (i - 1) as i32 }
}

impl Nodes<'_> {
    // The place of x.
    #[inline]
    #[tactic(auto, using(crate::proofs::Bisection::bounding))]
    pub fn place(self, x: f32) -> Place
        requires { length self.list.now ≤ 0x8000_0000 }
        ensures interval { result.interval ≡ node_interval self.entry.list.now x }
        ensures four { result.four ≡ Spec.four_at self.entry.list.now x result.interval }
    {
        let interval = self.find_interval(x);
        Place {
            interval,
            four: four_at(self.list, x, interval),
        }
    }
}

// The offset and the weights at x, or none where x is outside the nodes. An offset is an `i32`, so
// the nodes are at most 2^31.
#[tactic(auto, using(crate::proofs::Bisection::bounding), unfolding(crate::specs::Weights::catmull_rom_weights))]
pub fn catmull_rom_weights(nodes: Nodes<'_>, x: f32) -> Option<Weights>
    requires { length nodes.list.now ≤ 0x8000_0000 }
    ensures { result ≡ Spec.catmull_rom_weights nodes.entry.list.now x }
{
    if !is_within(nodes.list, x) {
        return None;
    }
    let place = nodes.place(x);
    Some(Weights {
        offset: offset_of(place.interval),
        four: place.four,
    })
}
