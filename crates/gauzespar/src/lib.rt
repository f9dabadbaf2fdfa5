// The offered calls for other languages: numbers and lists alone, under names that C can call. Each
// returns 0 for a value, which is then in the output lists, or the number of its refusal, and then
// no list has changed. include/gauzespar.h is the same for its users.
#![tactic(auto)]

pub mod arguments;
pub mod outputs;
pub mod queries;
pub mod splines;
pub mod tables;
