// A finite `f32` above zero by two whole numbers, from which its root and its logarithm are worked
// out.
ghost use Rattle.std.specs.Prelude.{◌≡◌, ◌^◌, ◌<◌, ◌≤◌, T};
ghost use Rattle.std.specs.Float.Ieee.Positive.{positive};
ghost use Rattle.elementary.specs.Units.{mag, Normalised};

// A significand q of 24 digits, and the number of digits that the value has in units of 2 ^ -149: it
// has q * 2 ^ size / 2 ^ 24 of them.
#[derive(Clone, Copy)]
pub struct Normal {
    pub q: u32,
    pub size: u32,
    ghost low: { 2 ^ 23 ≤ q },
    ghost high: { q < 2 ^ 24 },
    ghost most: { size ≤ 277 },
}

impl Normal {
    // The significand of a subnormal x is scaled by its leading zeros.
    pub fn new(x: f32) -> Normal
        requires { T (positive x) }
        ensures { Normalised (mag x) result.q result.size }
    {
        let bits = f32::to_bits(x);
        let field = bits % 0x8000_0000 / 0x80_0000;
        let digits = bits % 0x80_0000;
        if field == 0 {
            // a number of 24 digits leaves 8 zeros of a u32
            let zeros = u32::leading_zeros(digits) - 8;
            return Normal {
                q: digits << zeros,
                size: 24 - zeros,
            };
        }
        Normal {
            q: 0x80_0000 + digits,
            size: field + 23,
        }
    }
}
