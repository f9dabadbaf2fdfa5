// The text of answers. It gathers in a buffer, and goes to standard output when that is full and
// before more input is read. Once a write has failed nothing more is written: `flush` tells it, and
// `end` lets go of what is left. What is written has no contract, since std has no word for the bytes
// that a writer took.
use crate::entry::Entry;
use std::alloc::Global;
use std::fmt::Display;
use std::io;
use std::io::{BufWriter, Stdout, Write};

#[derive(Drop)]
pub struct Output {
    to: BufWriter<Stdout>,
    failure: Option<io::Error>,
}

impl Output {
    pub(crate) fn new(alloc: Global, to: Stdout) -> io::Result<Output> {
        Ok(Output {
            to: BufWriter::with_capacity(alloc, 65536, to)?,
            failure: None,
        })
    }

    pub fn text(&mut self, text: &[u8]) {
        if self.failure.is_none() {
            self.failure = self.to.write_all(text).err();
        }
    }

    // A space and the number in decimal.
    pub fn int<N: Display + Drop>(&mut self, n: N) {
        if self.failure.is_none() {
            self.failure = write!(self.to, " {n}").err();
        }
    }

    // By hand, since with `{n:08x}` `elementary_test` takes half as long again.
    fn digits(&mut self, n: u32) {
        const DIGITS: &[u8; 16] = b"0123456789abcdef";
        let mut text = [0u8; 8];
        let mut rest = n;
        for place in text.iter_mut() {
            *place = DIGITS[(rest >> 28) as usize];
            rest <<= 4;
        }
        self.text(&text);
    }

    // A space and 8 digits.
    pub(crate) fn bits(&mut self, n: u32) {
        self.text(b" ");
        self.digits(n);
    }

    // A space and 16 digits.
    pub fn long_bits(&mut self, n: u64) {
        self.bits((n >> 32) as u32);
        self.digits((n & 0xffff_ffff) as u32);
    }

    // The bits of each entry.
    pub fn entries<T: Entry>(&mut self, xs: &[T]) {
        for x in xs {
            self.bits(x.bits());
        }
    }

    // A word, and the bits of each entry.
    pub fn values<T: Entry>(&mut self, word: &[u8], xs: &[T]) {
        self.text(word);
        self.entries(xs);
    }

    pub(crate) fn flush(&mut self) -> io::Result<()> {
        match self.failure.take() {
            Some(e) => Err(e),
            None => self.to.flush(),
        }
    }

    // Writes what is left, if all has gone well. A `BufWriter` that is dropped would write it anyhow.
    pub(crate) fn end(mut self, so_far: io::Result<()>) -> io::Result<()> {
        let whole = match so_far {
            Ok(()) => self.flush(),
            Err(e) => Err(e),
        };
        if whole.is_err() {
            let Output { to, failure: _ } = self;
            let _unwritten = to.into_parts();
        }
        whole
    }
}
