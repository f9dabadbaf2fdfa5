// The nodes that a started table has: radii and albedos, as `compute_beam_diffusion_bssrdf` of
// bssrdf.rs chooses them. That check 6 passes them is `laws`.
#![tactic(auto)]

pub mod laws;
pub mod nodes;

pub use nodes::{radius_nodes, rho_nodes};
