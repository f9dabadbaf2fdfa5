// Lines. The words of a line are separated by one space, with none before the first or after the last.
// The first is the line's name, and the others are numbers.
ghost use Rattle.std.specs.Prelude.{◌≡◌, IfOk, is_ok, is_none, position, option_copied, option_map, if◌then◌else◌};
ghost use Rattle.std.specs.Result.{result_ok};
ghost use Rattle.words.specs.Line as Spec;

use crate::entry::Entry;
use crate::malformed::Malformed;
use crate::number::{Number, entry};
use arrayvec::ArrayVec;

// The most entries that a line gives.
const MOST: usize = 64;

// The place of the first space.
fn space(text: &[u8]) -> Option<usize>
    ensures { result ≡ position Spec.is_space text.now }
{
    text.iter().position(|c| *c == b' ')
}

// A line, whose words are read in turn. What follows the word that was read last is the rest.
#[derive(Drop)]
pub struct Line<'a> {
    rest: Option<&'a [u8]>,
}

impl<'a> Line<'a> {
    pub fn new(text: &'a [u8]) -> Line<'a>
        ensures { Spec.left result ≡ Some text.now }
    {
        Line { rest: Some(text) }
    }

    // The next word, which is the line's name where it is the first.
    pub fn word(&mut self) -> Result<&'a [u8], Malformed>
        ensures word { option_copied (result_ok result) ≡ Spec.word (Spec.left self.old) }
        ensures rest { Spec.left self.new ≡ Spec.after (Spec.left self.old) }
    {
        let text = self.rest.ok_or(Malformed)?;
        match space(text) {
            Some(i) => {
                self.rest = Some(&text[i + 1..]);
                Ok(&text[..i])
            }
            None => {
                self.rest = None;
                Ok(text)
            }
        }
    }

    // The number that the next word is.
    pub fn number<T: Number>(&mut self) -> Result<T, Malformed>
        ensures number { result_ok result ≡ Spec.next T.of_word (Spec.left self.old) }
        ensures rest { Spec.left self.new ≡ Spec.after (Spec.left self.old) }
    {
        T::read(self.word()?)
    }

    // Those that the next N words are.
    pub fn numbers<T: Number, const N: usize>(&mut self) -> Result<[T; N], Malformed>
        ensures numbers { result_ok result ≡ Spec.nexts T.of_word N (Spec.left self.old) }
        ensures rest { IfOk result (λ _. Spec.left self.new ≡ Spec.after_words N (Spec.left self.old)) }
    {
        let mut xs = [T::default(); N];
        for x in xs.iter_mut() {
            *x = self.number()?;
        }
        Ok(xs)
    }

    pub fn entry<T: Entry>(&mut self) -> Result<T, Malformed>
        ensures entry { result_ok result ≡ Spec.next (Spec.entry T.of_bits) (Spec.left self.old) }
        ensures rest { Spec.left self.new ≡ Spec.after (Spec.left self.old) }
    {
        entry(self.word()?)
    }

    // One entry or more, to the line's end: at most so many turns, since there is room for no more.
    pub fn entries<T: Entry>(mut self) -> Result<ArrayVec<T, MOST>, Malformed>
        ensures { option_map (λ all. all.items) (result_ok result) ≡ Spec.to_end (Spec.entry T.of_bits) MOST (Spec.left self.entry) }
    {
        let mut all = ArrayVec::new();
        for _ in 0..MOST {
            all.push(self.entry()?);
            if self.rest.is_none() {
                return Ok(all);
            }
        }
        Err(Malformed)
    }

    // One entry, with which the line ends.
    pub fn last<T: Entry>(mut self) -> Result<T, Malformed>
        ensures { result_ok result ≡ (if is_none (Spec.after (Spec.left self.entry)) then Spec.next (Spec.entry T.of_bits) (Spec.left self.entry) else None) }
    {
        let x = self.entry()?;
        self.end()?;
        Ok(x)
    }

    // The line has no more words.
    pub fn end(self) -> Result<(), Malformed>
        ensures { is_ok result ≡ is_none (Spec.left self.entry) }
    {
        match self.rest {
            Some(_) => Err(Malformed),
            None => Ok(()),
        }
    }
}
