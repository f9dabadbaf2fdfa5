// The elementary functions for C: oracle/elementary links them, to compare them with the hardware
// and with the specification's formulas on every `f32`, and to time them.
#![tactic(auto)]

ghost use Rattle.std.specs.Prelude.{◌≡◌, cond, map, eqb, length};
ghost use Rattle.elementary.specs.Sign as Sign;
ghost use Rattle.elementary.specs.Convert as Convert;
ghost use Rattle.elementary.specs.Root.{Root, sqrt};
ghost use Rattle.elementary.specs.Exponential as Exponential;
ghost use Rattle.elementary.specs.Logarithm as Logarithm;

#[unsafe(no_mangle)]
pub extern "C" fn elementary_abs(x: f32) -> f32
    ensures { result ≡ Sign.abs x }
{
    elementary::abs(x)
}

#[unsafe(no_mangle)]
pub extern "C" fn elementary_max0(v: f32) -> f32
    ensures { result ≡ Sign.max0 v }
{
    elementary::max0(v)
}

#[unsafe(no_mangle)]
pub extern "C" fn elementary_widen(x: f32) -> f64
    ensures { result ≡ Convert.widen x }
{
    elementary::widen(x)
}

#[unsafe(no_mangle)]
pub extern "C" fn elementary_narrow(x: f64) -> f32
    ensures { result ≡ Convert.narrow x }
{
    elementary::narrow(x)
}

#[unsafe(no_mangle)]
pub extern "C" fn elementary_sqrt(x: f32) -> f32
    ensures { Root x result }
{
    elementary::sqrt(x)
}

#[unsafe(no_mangle)]
pub extern "C" fn elementary_exp(x: f32) -> f32
    ensures { result ≡ Exponential.exp x }
{
    elementary::exp(x)
}

#[unsafe(no_mangle)]
pub extern "C" fn elementary_ln(x: f32) -> f32
    ensures { result ≡ Logarithm.ln x }
{
    elementary::ln(x)
}

#[unsafe(no_mangle)]
pub extern "C" fn elementary_sqrt_each(xs: &mut [f32])
    ensures { xs.new ≡ map sqrt xs.old }
{
    elementary::sqrt_each(xs)
}

// Nothing is done where the room has another length.
#[unsafe(no_mangle)]
pub extern "C" fn elementary_exp_each(xs: &mut [f32], room: &mut [f64])
    ensures { (xs.new ≡ cond (eqb (length room.old) (length xs.old)) (map Exponential.exp xs.old) xs.old) × (room.new ≡ cond (eqb (length room.old) (length xs.old)) (map Exponential.series xs.old) room.old) }
{
    if room.len() == xs.len() {
        elementary::exp_each(xs, room)
    }
}
