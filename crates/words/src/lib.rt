// Programs that answer lines: the lines of standard input, the name and the numbers of a line, and
// the text of answers on its way to standard output.
#![tactic(auto)]

mod entry;
mod input;
mod line;
mod malformed;
mod number;
mod output;

pub use entry::Entry;
pub use input::answer_lines;
pub use line::Line;
pub use malformed::Malformed;
pub use number::Number;
pub use output::Output;
