// The spectrum of spectrum.rs, and its channels.
#![tactic(auto, using(elementary::proofs::Values::testing), unfolding(crate::specs::Spectrum::channel, crate::specs::Spectrum::channel_number, crate::specs::Spectrum::plus, crate::specs::Spectrum::times, crate::specs::Spectrum::clamp, crate::specs::Spectrum::has_nans))]

ghost use Rattle.std.specs.Prelude.{◌≡◌};
ghost use Rattle.scattering.specs.Spectrum as Spectra;

use crate::clamp::clamp_t;
use std::error::Error;
use std::fmt;
use std::ops::{Add, Index, Mul};

#[derive(Clone, Copy, Debug, PartialEq, Eq, Hash)]
pub enum RGBEnum {
    Red,
    Green,
    Blue,
}

// A number that is no channel's.
#[derive(Clone, Copy, Debug, PartialEq, Eq, Hash)]
pub struct UnknownChannel(pub u32);

impl TryFrom<u32> for RGBEnum {
    type Error = UnknownChannel;

    ghost try_from_gives = { Spectra.Numbers };

    // The channel of a number.
    fn try_from(number: u32) -> Result<RGBEnum, UnknownChannel> {
        match number {
            0 => Ok(RGBEnum::Red),
            1 => Ok(RGBEnum::Green),
            2 => Ok(RGBEnum::Blue),
            _ => Err(UnknownChannel(number)),
        }
    }
}

impl fmt::Display for UnknownChannel {
    fn fmt<W: fmt::Write>(&self, f: &mut fmt::Formatter<W>) -> fmt::Result {
        write!(f, "no channel has the number {}", self.0)
    }
}

impl Error for UnknownChannel {}

#[derive(Clone, Copy, Debug, PartialEq)]
pub struct Spectrum {
    pub r: f32,
    pub g: f32,
    pub b: f32,
}

impl Spectrum {
    pub const BLACK: Spectrum = Spectrum {
        r: 0.0,
        g: 0.0,
        b: 0.0,
    };

    // Three equal values.
    pub fn new(v: f32) -> Spectrum
        ensures { result ≡ Spectra.uniform v }
    {
        Spectrum { r: v, g: v, b: v }
    }

    pub fn rgb(r: f32, g: f32, b: f32) -> Spectrum
        ensures { result ≡ Spectra.rgb r g b }
    {
        Spectrum { r, g, b }
    }

    // Each channel clamped. A NaN stays one, where the Rust panics: `has_nans` tells.
    pub fn clamp(self, low: f32, high: f32) -> Spectrum
        ensures { result ≡ Spectra.clamp self low high }
    {
        Spectrum {
            r: clamp_t(self.r, low, high),
            g: clamp_t(self.g, low, high),
            b: clamp_t(self.b, low, high),
        }
    }

    pub fn has_nans(self) -> bool
        ensures { result ≡ Spectra.has_nans self }
    {
        let r = self.r;
        let g = self.g;
        let b = self.b;
        r.is_nan() | g.is_nan() | b.is_nan()
    }
}

impl Add for Spectrum {
    type Output = Spectrum;

    ghost add_gives = { λ s t r. r ≡ Spectra.plus s t };

    fn add(self, other: Spectrum) -> Spectrum {
        Spectrum {
            r: self.r + other.r,
            g: self.g + other.g,
            b: self.b + other.b,
        }
    }
}

impl Mul for Spectrum {
    type Output = Spectrum;

    ghost mul_gives = { λ s t r. r ≡ Spectra.times s t };

    fn mul(self, other: Spectrum) -> Spectrum {
        Spectrum {
            r: self.r * other.r,
            g: self.g * other.g,
            b: self.b * other.b,
        }
    }
}

// The value of one channel.
impl Index<RGBEnum> for Spectrum {
    type Output = f32;

    ghost index_gives = { λ s ch v. v ≡ Spectra.channel s ch };

    fn index(&self, ch: RGBEnum) -> &f32 {
        match ch {
            RGBEnum::Red => &self.r,
            RGBEnum::Green => &self.g,
            RGBEnum::Blue => &self.b,
        }
    }
}

impl From<Spectrum> for [f32; 3] {
    ghost from_gives = { λ s xs. xs ≡ Spectra.values s };

    // The three values, red first.
    fn from(s: Spectrum) -> [f32; 3] {
        [s.r, s.g, s.b]
    }
}

impl From<[f32; 3]> for Spectrum {
    ghost from_gives = { λ xs s. Spectra.values s ≡ xs };

    // By the three values, red first.
    fn from(xs: [f32; 3]) -> Spectrum {
        let [r, g, b] = xs;
        Spectrum { r, g, b }
    }
}

// The black spectrum, whose channels are +0: what the constant is, which has no contract itself.
pub fn black() -> Spectrum
    ensures { result ≡ Spectra.black }
{
    Spectrum::BLACK
}
