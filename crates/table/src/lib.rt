// Beam diffusion tables: `BssrdfTable` and `compute_beam_diffusion_bssrdf` of bssrdf.rs, started
// whole and then built row by row, in lists that the caller lends. The offered calls are `start`
// and `build`.
#![tactic(auto)]

pub mod building;
pub mod checks;
pub mod laws;
pub mod lists;
pub mod parameters;
pub mod row;
pub mod starting;

pub use building::build;
pub use lists::{Lent, Table, TableMut};
pub use parameters::{Lengths, Record};
pub use starting::start;
