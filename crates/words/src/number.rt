// What words stand for. An INT is 1 to 10 decimal digits, at most 4294967295; a BITS is 8 hexadecimal
// digits in lower case, or 16.
ghost use Rattle.std.specs.Prelude.{◌≡◌, ◌<◌, ◌≤◌, ◌^◌, ℕ, List, Option, length, IfSome};
ghost use Rattle.std.specs.Result.{result_ok};
ghost use Rattle.words.specs.Line as Spec;

use crate::entry::Entry;
use crate::malformed::Malformed;

// By hand, since std's `to_digit` takes upper case too.
fn digit<const BASE: u64>(c: u8) -> Option<u64>
    ensures digit { result ≡ Spec.digit BASE c }
    ensures below { IfSome result (λ d. d < BASE) }
{
    let value = match c {
        b'0'..=b'9' => c - b'0',
        b'a'..=b'f' => c - b'a' + 10,
        _ => 16,
    };
    let value = u64::from(value);
    if value < BASE { Some(value) } else { None }
}

// The number that digits stand for. Not std's `from_str_radix`, which takes a sign and upper case too:
// with a test for those before it, `elementary_test` takes a sixth longer.
fn digits<const BASE: u64>(word: &[u8]) -> Option<u64>
    requires { BASE ^ length word.now ≤ 2 ^ 64 }
    ensures digits { result ≡ Spec.digits BASE word.now }
    ensures below { IfSome result (λ n. n < BASE ^ length word.now) }
{
    let mut n = 0;
    for c in word {
        let d = digit::<BASE>(*c)?;
        n = BASE * n + d;
    }
    Some(n)
}

// Not std's `parse`, which takes a sign and more digits too.
fn int(word: &[u8]) -> Option<u32>
    ensures { result ≡ Spec.int word.now }
{
    if word.is_empty() || word.len() > 10 {
        return None;
    }
    u32::try_from(digits::<10>(word)?).ok()
}

// A BITS of so many digits.
fn bits<const COUNT: usize>(word: &[u8]) -> Option<u64>
    requires { 16 ^ COUNT ≤ 2 ^ 64 }
    ensures bits { result ≡ Spec.bits COUNT word.now }
    ensures below { IfSome result (λ n. n < 16 ^ COUNT) }
{
    if word.len() != COUNT {
        return None;
    }
    digits::<16>(word)
}

// A BITS of 8 digits.
pub(crate) fn entry<T: Entry>(word: &[u8]) -> Result<T, Malformed>
    ensures { result_ok result ≡ Spec.entry T.of_bits word.now }
{
    let n = bits::<8>(word).ok_or(Malformed)?;
    T::from_bits(u32::try_from(n).map_err(|_| Malformed)?)
}

// The numbers that a word is: an INT as a `u32` or a `usize`, and a BITS as a float, of 32 or 64 bits by
// its digits.
pub trait Number: Copy + Default + Drop {
    ghost of_word: { List ℕ → Option Self };

    fn read(word: &[u8]) -> Result<Self, Malformed>
        ensures { result_ok result ≡ of_word word.now };
}

impl Number for u32 {
    ghost of_word = { Spec.int };

    fn read(word: &[u8]) -> Result<u32, Malformed> {
        int(word).ok_or(Malformed)
    }
}

impl Number for usize {
    ghost of_word = { Spec.int };

    fn read(word: &[u8]) -> Result<usize, Malformed> {
        Ok(int(word).ok_or(Malformed)? as usize)
    }
}

impl Number for f32 {
    ghost of_word = { Spec.float };

    fn read(word: &[u8]) -> Result<f32, Malformed> {
        entry(word)
    }
}

impl Number for f64 {
    ghost of_word = { Spec.double };

    fn read(word: &[u8]) -> Result<f64, Malformed> {
        let n = bits::<16>(word).ok_or(Malformed)?;
        Ok(elementary::bits_to_double(n))
    }
}
