// The ten lists that calls are made on: a table's six, and a caller's own four. Lines set their
// lengths, store entries, and show or hash them.
#![tactic(auto)]

mod hash;
mod lines;
mod list;
mod name;

pub use lines::{Lists, Own};
pub use name::{LENT, Name, OWN, names};
