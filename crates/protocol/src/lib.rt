// Lines and their answers: each line makes a call of the library, on the six lists that a table
// lends, on a caller's own four, or on none, or is about the lists themselves. docs/PROTOCOL.md says
// which.
#![tactic(auto)]

mod free;
mod lent;
mod own;

use lists::{LENT, Lists, OWN};
use words::{Line, Malformed, Output};

// Answers a line, if it has one of the forms and fits the lists. A name is text, so a match tells which
// call it makes.
pub fn answer(text: &[u8], lists: &mut Lists, out: &mut Output) -> Result<(), Malformed> {
    let mut line = Line::new(text);
    match line.word()? {
        b"lens" => lists.lens(&LENT, line, out),
        b"ownlens" => lists.lens(&OWN, line, out),
        b"put" => lists.put(line, out),
        b"fill" => lists.fill(line, out),
        b"list" => lists.show(line, out),
        b"dump" => lists.dump(&LENT, line, out),
        b"owndump" => lists.dump(&OWN, line, out),
        b"dumpall" => lists.dump_all(line, out),
        b"start" => lent::start(line, lists, out),
        b"build" => lent::build(line, lists, out),
        b"sr" => lent::sr(line, lists, out),
        b"pdf" => lent::pdf_sr(line, lists, out),
        b"draw" => lent::sample_sr(line, lists, out),
        b"weights" => own::weights(line, lists, out),
        b"integrate" => own::integrate(line, lists, out),
        b"sample2d" => own::sample_2d(line, lists, out),
        b"sw" => free::sw(line, out),
        b"q" => free::of_one(line, out, elementary::sqrt),
        b"e" => free::of_one(line, out, elementary::exp),
        b"l" => free::ln(line, out),
        _ => Err(Malformed),
    }
}
