// What a BITS of 8 digits stands for.
ghost use Rattle.std.specs.Prelude.{◌≡◌, ℕ, ltb, if◌then◌else◌, Option, from_bits, Some, None};
ghost use Rattle.std.specs.Result.{result_ok};
ghost use Rattle.std.specs.Float.{binary32};

use crate::malformed::Malformed;

pub trait Entry: Copy + Default + Drop {
    ghost of_bits: { ℕ → Option Self };

    fn from_bits(bits: u32) -> Result<Self, Malformed>
        ensures { result_ok result ≡ of_bits bits };

    fn bits(self) -> u32;
}

impl Entry for u32 {
    ghost of_bits = { λ n. Some n };

    fn from_bits(bits: u32) -> Result<u32, Malformed> {
        Ok(bits)
    }

    fn bits(self) -> u32 {
        self
    }
}

// Every NaN is given by the same bits.
impl Entry for f32 {
    ghost of_bits = { λ n. Some (from_bits binary32 n) };

    fn from_bits(bits: u32) -> Result<f32, Malformed> {
        Ok(elementary::bits_to_float(bits))
    }

    fn bits(self) -> u32 {
        elementary::float_to_bits(self)
    }
}

impl Entry for u8 {
    ghost of_bits = { λ n. if ltb n 256 then Some n else None };

    fn from_bits(bits: u32) -> Result<u8, Malformed> {
        u8::try_from(bits).map_err(|_| Malformed)
    }

    fn bits(self) -> u32 {
        u32::from(self)
    }
}
