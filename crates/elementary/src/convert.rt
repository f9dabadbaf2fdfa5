// Between `f32` and `f64`.
ghost use Rattle.std.specs.Prelude.{◌≡◌, ◌+◌, ◌*◌, ◌^◌, ◌<◌, ◌≤◌, Bool, if◌then◌else◌, from_bits};
ghost use Rattle.std.specs.Float.{binary32};
ghost use Rattle.std.specs.Float.Ieee.{round};
ghost use Rattle.std.specs.Float.Ieee.Nearest.{closest};
ghost use Rattle.elementary.specs.Convert as Convert;

use super::constants::nan;

// x at the wider format, which holds every `f32`. A NaN gives a NaN.
pub fn widen(x: f32) -> f64
    ensures { result ≡ Convert.widen x }
{
    std::num::f32_to_f64_with_nan(x)
}

// The size of a finite `f64`, q * 2 ^ j / 2 ^ 1074: q has 53 digits, or fewer where j is 0.
#[derive(Clone, Copy)]
struct Magnitude {
    q: u64,
    j: u64,
    ghost digits: { q < 2 ^ 53 },
    ghost exponent: { j < 2046 },
    ghost normal: { 0 < j → 2 ^ 52 ≤ q },
}

impl Magnitude {
    // q / 2 ^ d to the nearest whole number, a tie to the even one: half a unit is added and the
    // rest cut off, and where the whole part is even half a unit less one, so that a tie falls back
    // to it.
    fn nearest(self, d: u64) -> u64
        requires some { 0 < d }
        requires few { d < 54 }
        ensures { result ≡ closest self.q (2 ^ d) }
    {
        let half = 1u64 << (d - 1);
        (self.q + (half - 1) + (self.q >> d) % 2) >> d
    }

    // The pattern, without its sign, of the nearest `f32`: k * 2 ^ 23 + kept, where kept * 2 ^ k is
    // the rounded magnitude in units of 2 ^ -149. The leading digit of kept adds one to the
    // exponent's field, and a carry out of the rounding moves on into it.
    fn pack(self) -> u64
        ensures { (result ≤ 0x7f80_0000) × ((s : Bool) → from_bits binary32 ((if s then 2 ^ 31 else 0) + result) ≡ round binary32 s (self.q * 2 ^ self.j) (2 ^ 1074)) }
    {
        let j = self.j;
        let size = 64 - (u64::leading_zeros(self.q) as u64);
        if 949 < size + j {
            let r = (size + j - 949) * 0x80_0000 + self.nearest(size - 24);
            if r < 0x7f80_0000 { r } else { 0x7f80_0000 }
        } else {
            // 925 - j digits of q lie below 2 ^ -149: from 54 on, q is less than half of it
            if j < 872 { 0 } else { self.nearest(925 - j) }
        }
    }
}

// The value of the pattern r with the sign's bit before it.
#[tactic(auto, using(crate::proofs::Patterns::patterns))]
fn signed(sign: u64, r: u64) -> f32
    requires bit { sign < 2 }
    requires no_nan { r ≤ 0x7f80_0000 }
    ensures { result ≡ from_bits binary32 (sign * 2 ^ 31 + r) }
{
    f32::from_bits((sign * 0x8000_0000 + r) as u32)
}

// The `f32` nearest to x, a tie to the even one. From halfway past the largest one on it is an
// infinity. It is worked out here, and not by the library's conversion (specification, section 7.5;
// docs/DECISIONS.md).
pub fn narrow(x: f64) -> f32
    ensures { result ≡ Convert.narrow x }
{
    if x.is_nan() {
        return nan();
    }
    let bits = f64::to_bits(x);
    let sign = bits / 0x8000_0000_0000_0000;
    let field = bits % 0x8000_0000_0000_0000 / 0x10_0000_0000_0000;
    let digits = bits % 0x10_0000_0000_0000;
    if field == 0x7ff {
        return signed(sign, 0x7f80_0000);
    }
    if field == 0 {
        return signed(sign, Magnitude { q: digits, j: 0 }.pack());
    }
    let size = Magnitude {
        q: 0x10_0000_0000_0000 + digits,
        j: field - 1,
    };
    signed(sign, size.pack())
}
