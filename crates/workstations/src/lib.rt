// Lists of calls from workstations: what one call does, what a list of calls does, and the claim
// over whole lists of calls. The calls are made by `step`, and lists of them by `make`.
#![tactic(auto)]

pub mod calls;
pub mod claim;
pub mod making;

pub use calls::{Call, Query, Reply};
pub use making::{ask, make, make_batch, step};
