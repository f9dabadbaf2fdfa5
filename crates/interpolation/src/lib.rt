// Catmull-Rom splines over lists of nodes: interpolation.rs, and `find_interval` of pbrt.rs. The
// module `own` has the calls that are offered on a caller's own lists.
#![tactic(auto)]

pub mod blend;
pub mod checks;
pub mod eights;
pub mod integral;
pub mod interval;
pub mod laws;
pub mod nodes;
pub mod own;
pub mod sample;
pub mod slope;
pub mod solve;
pub mod weights;
