// `TabulatedBssrdf` of bssrdf.rs over a table whose rows are built as they are needed: the offered
// calls are `sr`, `pdf_sr` and `sample_sr`. Each takes a `Table`, whose lists are only read.
#![tactic(auto)]

pub mod axes;
pub mod checks;
pub mod coefficients;
pub mod density;
pub mod drawing;
pub mod grid;
pub mod laws;
pub mod needed;
pub mod radiance;

pub use coefficients::{Coefficients, OpticalRadius, WorldRadius};
pub use density::pdf_sr;
pub use drawing::{Drawn, sample_sr};
pub use radiance::sr;
