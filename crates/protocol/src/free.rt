// The calls on no list, and the answers that several calls have.
use answers::Refusal;
use words::{Line, Malformed, Output};

// Tells what a call gave, or the number of its refusal.
pub(crate) fn answered<T, F: FnOnce(T, &mut Output)>(
    reply: Result<T, Refusal>,
    out: &mut Output,
    tell: F,
)
    requires { F.IsAlwaysCallable tell }
{
    match reply {
        Ok(x) => tell(x, out),
        Err(refusal) => {
            out.text(b"refused");
            out.int(u32::from(refusal));
        }
    }
}

pub(crate) fn sw(mut line: Line<'_>, out: &mut Output) -> Result<(), Malformed> {
    let [eta, cosine] = line.numbers::<f32, 2>()?;
    line.end()?;
    answered(scattering::sw(eta, cosine), out, |s, out| {
        out.values(b"value", &<[f32; 3]>::from(s));
    });
    Ok(())
}

// A function of one float.
pub(crate) fn of_one<F: FnOnce(f32) -> f32>(
    line: Line<'_>,
    out: &mut Output,
    f: F,
) -> Result<(), Malformed>
    requires { F.IsAlwaysCallable f }
{
    let x = line.last()?;
    out.values(b"value", &[f(x)]);
    Ok(())
}

// L, which has a value at normal numbers between 0 and 1 alone (specification, section 7.4).
pub(crate) fn ln(line: Line<'_>, out: &mut Output) -> Result<(), Malformed> {
    let bits: u32 = line.last()?;
    if !(0x0080_0000..0x3f80_0000).contains(&bits) {
        return Err(Malformed);
    }
    let x = elementary::bits_to_float(bits);
    out.values(b"value", &[elementary::ln(x)]);
    Ok(())
}
