// The lines of standard input, each ended by one LF, which the last may lack.
use crate::malformed::Malformed;
use crate::output::Output;
use std::alloc::Global;
use std::io::{BufRead, BufReader, Read, Stdin, Stdout};
use std::{io, str};

// The most bytes of a line. Of a longer one no more are kept than tell so.
const LONGEST: usize = 2000;

// The input, and the line that was read last.
#[derive(Drop)]
struct Input {
    from: BufReader<Stdin>,
    line: Vec<u8>,
}

impl Input {
    fn new(alloc: Global, from: Stdin) -> io::Result<Input> {
        Ok(Input {
            from: BufReader::with_capacity(alloc, 65536, from)?,
            line: Vec::new(alloc),
        })
    }

    // Reads a line, and says whether there is one; its text stays here, where the next is read over it. All answers are written before it waits for input.
    fn read(&mut self, out: &mut Output) -> io::Result<bool> {
        if !self.from.buffer().contains(&b'\n') {
            out.flush()?;
        }
        self.line.clear();
        let most = LONGEST as u64 + 1;
        self.from
            .by_ref()
            .take(most)
            .read_until(b'\n', &mut self.line)?;
        self.end()
    }

    // Takes off the line's end, or skips what is left of a line that is too long.
    fn end(&mut self) -> io::Result<bool> {
        if self.line.last() == Some(&b'\n') {
            self.line.pop();
            return Ok(true);
        }
        if self.line.len() > LONGEST {
            self.from.skip_until(b'\n')?;
        }
        Ok(!self.line.is_empty())
    }

    // The line that was read, if it has at most 2,000 bytes.
    fn text(&self) -> Result<&[u8], Malformed> {
        if self.line.len() > LONGEST {
            return Err(Malformed);
        }
        Ok(self.line.as_slice())
    }
}

fn answer_all<F: FnMut(&[u8], &mut Output) -> Result<(), Malformed>>(
    mut input: Input,
    out: &mut Output,
    mut answer: F,
) -> io::Result<()>
    requires { F.IsAlwaysCallable answer }
{
    // to the input's end: how a loop with no other bound is written
    for _ in 0..u64::MAX {
        if !input.read(out)? {
            break;
        }
        let answered = match input.text() {
            Ok(line) => answer(line, out),
            Err(malformed) => Err(malformed),
        };
        if answered.is_err() {
            out.text(b"bad");
        }
        out.text(b"\n");
    }
    Ok(())
}

// Has each line of standard input answered, up to its end. One that is malformed, and one of more than
// 2,000 bytes, gets `bad`.
pub fn answer_lines<F: FnMut(&[u8], &mut Output) -> Result<(), Malformed>>(
    alloc: Global,
    from: Stdin,
    to: Stdout,
    answer: F,
) -> io::Result<()>
    requires { F.IsAlwaysCallable answer }
{
    let input = Input::new(alloc, from)?;
    let mut out = Output::new(alloc, to)?;
    let so_far = answer_all(input, &mut out, answer);
    out.end(so_far)
}
