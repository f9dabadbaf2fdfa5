// Answers each line of standard input: a letter for the function and the argument's bits, 16 digits
// for narrow and 8 otherwise. The answer is the same line with the result's bits after it.
// oracle/elementary makes cases and answers.
#![tactic(auto)]

use std::io;
use words::{Line, Malformed, Output};

// What a function gives.
#[derive(Clone, Copy)]
enum Value {
    Float(f32),
    Double(f64),
}

// By the line's name, which is text.
fn result(line: &[u8]) -> Result<Value, Malformed> {
    let mut line = Line::new(line);
    let value = match line.word()? {
        b"a" => Value::Float(elementary::abs(line.number()?)),
        b"m" => Value::Float(elementary::max0(line.number()?)),
        b"w" => Value::Double(elementary::widen(line.number()?)),
        b"n" => Value::Float(elementary::narrow(line.number()?)),
        b"q" => Value::Float(elementary::sqrt(line.number()?)),
        b"e" => Value::Float(elementary::exp(line.number()?)),
        b"l" => Value::Float(elementary::ln(line.number()?)),
        _ => return Err(Malformed),
    };
    line.end()?;
    Ok(value)
}

fn answer(line: &[u8], out: &mut Output) -> Result<(), Malformed> {
    let value = result(line)?;
    out.text(line);
    match value {
        Value::Float(x) => out.entries(&[x]),
        Value::Double(x) => out.long_bits(elementary::double_to_bits(x)),
    }
    Ok(())
}

// A program has a `main` of its own: this one call.
fn main(rt: HostRuntime) -> io::Result<()> {
    words::answer_lines(rt.alloc(), rt.stdin(), rt.stdout(), answer)
}
