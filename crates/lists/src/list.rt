// A list: its capacity's room, and its length. What lies beyond the length stays as it is, and the
// memory is fixed, so the room is an array beside a length and no `Vec`.
ghost use Rattle.std.specs.Prelude.{◌≡◌, take, true, is_err};

use crate::hash::Hash;
use words::{Entry, Line, Malformed, Output};

#[derive(Drop)]
pub(crate) struct List<T, const N: usize> {
    room: [T; N],
    len: u32,
}

impl<T: Entry, const N: usize> List<T, N> {
    pub(crate) fn new(x: T) -> List<T, N> {
        List {
            room: [x; N],
            len: 0,
        }
    }

    pub(crate) fn used_mut(&mut self) -> &mut [T]
        ensures { result.now ≡ take self.old.len self.old.room }
    {
        let n = N.min(self.len as usize);
        &mut self.room[..n]
    }

    pub(crate) fn used(&self) -> Used<'_, T> {
        let n = N.min(self.len as usize);
        Used {
            len: self.len,
            entries: &self.room[..n],
        }
    }

    // Stores entries from a place on, if they end within the capacity.
    pub(crate) fn put(&mut self, from: usize, entries: &[T]) -> Result<(), Malformed>
        ensures { is_err result ≡ true → self.new ≡ self.old }
    {
        if from > N || entries.len() > N - from {
            return Err(Malformed);
        }
        let room = &mut self.room[..];
        room[from..from + entries.len()].copy_from_slice(entries);
        Ok(())
    }

    // Fills the whole capacity with a line's entry. By hand, since std's `fill` at a type parameter asks
    // that no clone can fail.
    pub(crate) fn fill(&mut self, line: Line<'_>) -> Result<(), Malformed>
        ensures { is_err result ≡ true → self.new ≡ self.old }
    {
        let entry = line.last::<T>()?;
        for place in self.room.iter_mut() {
            *place = entry;
        }
        Ok(())
    }

    pub(crate) fn set_len(&mut self, len: u32)
        ensures { self.new ≡ record self.old { len = len } }
    {
        self.len = len;
    }
}

// The used part of a list of any capacity, with the length that a line gave it, which is shown and hashed.
#[derive(Drop)]
pub(crate) struct Used<'a, T> {
    len: u32,
    entries: &'a [T],
}

impl<T: Entry> Used<'_, T> {
    // Writes the length and the entries.
    fn show(&self, out: &mut Output) {
        out.int(self.len);
        out.entries(self.entries);
    }

    // Joins the length and the entries to a hash.
    fn join(&self, hash: &mut Hash) {
        hash.join(self.len);
        for x in self.entries {
            hash.join(x.bits());
        }
    }
}

// The same of any entries, since which list it is is known only when the line is read: a match of two
// arms for each thing that is asked.
#[derive(Drop)]
pub(crate) enum AnyUsed<'a> {
    Floats(Used<'a, f32>),
    Bytes(Used<'a, u8>),
}

impl AnyUsed<'_> {
    pub(crate) fn show(&self, out: &mut Output) {
        match self {
            AnyUsed::Floats(list) => list.show(out),
            AnyUsed::Bytes(list) => list.show(out),
        }
    }

    pub(crate) fn join(&self, hash: &mut Hash) {
        match self {
            AnyUsed::Floats(list) => list.join(hash),
            AnyUsed::Bytes(list) => list.join(hash),
        }
    }
}
