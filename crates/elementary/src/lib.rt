// The elementary functions under the tables: the stand-ins Q, E and L, the sign, and the two float
// formats (specification, section 7). Each function of a float is total, and its contract has an
// equation with a definition of specs/, over the logic's account of IEEE 754.
#![tactic(auto)]

pub mod bits;
pub mod constants;
pub mod convert;
pub mod exponential;
pub mod lists;
pub mod logarithm;
mod normal;
pub mod root;
pub mod sign;

pub use bits::{bits_to_double, bits_to_float, double_to_bits, float_to_bits};
pub use constants::{INV_4_PI, PI, infinity, nan};
pub use convert::{narrow, widen};
pub use exponential::{exp, exp_each};
pub use logarithm::ln;
pub use root::{sqrt, sqrt_each};
pub use sign::{abs, max0};
