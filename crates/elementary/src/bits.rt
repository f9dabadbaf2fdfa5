// Floats and their bit patterns, NaNs included: every NaN pattern is read as the one NaN, and a NaN
// is written as 7FC00000 or 7FF8000000000000. Four functions, each one call of the library, by the
// names of pbrt.rs: a generic one would need a trait with four methods.
ghost use Rattle.std.specs.Prelude.{◌≡◌, from_bits, to_bits};
ghost use Rattle.std.specs.Float.{binary32, binary64};

use std::num;

// `bits_to_float` of pbrt.rs.
pub fn bits_to_float(ui: u32) -> f32
    ensures { result ≡ from_bits binary32 ui }
{
    num::f32_from_bits_with_nan(ui)
}

// `float_to_bits` of pbrt.rs.
pub fn float_to_bits(f: f32) -> u32
    ensures { result ≡ to_bits binary32 f }
{
    num::f32_to_bits_with_nan(f)
}

// The same for `f64`.
pub fn bits_to_double(ui: u64) -> f64
    ensures { result ≡ from_bits binary64 ui }
{
    num::f64_from_bits_with_nan(ui)
}

pub fn double_to_bits(f: f64) -> u64
    ensures { result ≡ to_bits binary64 f }
{
    num::f64_to_bits_with_nan(f)
}
