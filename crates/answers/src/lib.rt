// What a call answers, and why it is refused (specification, section 4). A check gives `Ok`, or the
// `Refusal` of its row in the table of refusals; checks made one after the other with `?` give that
// of the first that refuses. `specs/` has the definitions and `proofs/` the laws.
#![tactic(auto)]

pub mod refusal;

pub use refusal::{Refusal, refuse_unless};
