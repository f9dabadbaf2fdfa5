// Answers each line of standard input: the name of a function, and the bits of its arguments in the
// function's order, three for a spectrum. An answer is `v` and the bits of the values, where has_nans
// has the word 1 or 0, or `r` and the refusal's number. oracle/scattering makes cases and answers.
#![tactic(auto)]

use answers::Refusal;
use scattering::{RGBEnum, Spectrum};
use std::io;
use words::{Line, Malformed, Output};

// What a function gives. A refusal is one of the kinds of answers that are printed.
#[derive(Clone, Copy)]
enum Value {
    Float(f32),
    Whole(Spectrum),
    Truth(bool),
    Refused(Refusal),
}

fn sw(line: &mut Line<'_>) -> Result<Value, Malformed> {
    let [eta, cosine] = line.numbers::<f32, 2>()?;
    Ok(match scattering::sw(eta, cosine) {
        Ok(s) => Value::Whole(s),
        Err(refusal) => Value::Refused(refusal),
    })
}

// ---- functions of spectra

fn spectrum(line: &mut Line<'_>) -> Result<Spectrum, Malformed> {
    Ok(Spectrum::from(line.numbers::<f32, 3>()?))
}

fn of_spectra<F: FnOnce(Spectrum, Spectrum) -> Spectrum>(
    line: &mut Line<'_>,
    f: F,
) -> Result<Value, Malformed>
    requires { F.IsAlwaysCallable f }
{
    let s = spectrum(line)?;
    Ok(Value::Whole(f(s, spectrum(line)?)))
}

fn clamp(line: &mut Line<'_>) -> Result<Value, Malformed> {
    let s = spectrum(line)?;
    let [low, high] = line.numbers::<f32, 2>()?;
    Ok(Value::Whole(s.clamp(low, high)))
}

fn has_nans(line: &mut Line<'_>) -> Result<Value, Malformed> {
    Ok(Value::Truth(spectrum(line)?.has_nans()))
}

// A number that is no channel's stands for the last channel.
fn channel(line: &mut Line<'_>) -> Result<Value, Malformed> {
    let number: u32 = line.entry()?;
    let channel = RGBEnum::try_from(number).unwrap_or(RGBEnum::Blue);
    Ok(Value::Float(spectrum(line)?[channel]))
}

// ---- lines

// By the line's name, which is text.
fn result(line: &mut Line<'_>) -> Result<Value, Malformed> {
    match line.word()? {
        b"clamp_t" => {
            let [val, low, high] = line.numbers::<f32, 3>()?;
            Ok(Value::Float(scattering::clamp_t(val, low, high)))
        }
        b"fr_dielectric" => {
            let [cosine, eta_i, eta_t] = line.numbers::<f32, 3>()?;
            Ok(Value::Float(scattering::fr_dielectric(cosine, eta_i, eta_t)))
        }
        b"phase_hg" => {
            let [cosine, g] = line.numbers::<f32, 2>()?;
            Ok(Value::Float(scattering::phase_hg(cosine, g)))
        }
        b"fresnel_moment1" => Ok(Value::Float(scattering::fresnel_moment1(line.number()?))),
        b"fresnel_moment2" => Ok(Value::Float(scattering::fresnel_moment2(line.number()?))),
        b"beam_diffusion_ss" => {
            let [sigma_s, sigma_a, g, eta, r] = line.numbers::<f32, 5>()?;
            Ok(Value::Float(scattering::beam_diffusion_ss(sigma_s, sigma_a, g, eta, r)))
        }
        b"beam_diffusion_ms" => {
            let [sigma_s, sigma_a, g, eta, r] = line.numbers::<f32, 5>()?;
            Ok(Value::Float(scattering::beam_diffusion_ms(sigma_s, sigma_a, g, eta, r)))
        }
        b"sw" => sw(line),
        b"add" => of_spectra(line, |s, t| s + t),
        b"mul" => of_spectra(line, |s, t| s * t),
        b"clamp" => clamp(line),
        b"has_nans" => has_nans(line),
        b"channel" => channel(line),
        _ => Err(Malformed),
    }
}

fn show(value: Value, out: &mut Output) {
    match value {
        Value::Float(x) => out.values(b"v", &[x]),
        Value::Whole(s) => out.values(b"v", &<[f32; 3]>::from(s)),
        Value::Truth(is_true) => out.values(b"v", &[u32::from(is_true)]),
        Value::Refused(refusal) => out.values(b"r", &[u32::from(refusal)]),
    }
}

fn answer(line: &[u8], out: &mut Output) -> Result<(), Malformed> {
    let mut line = Line::new(line);
    let value = result(&mut line)?;
    line.end()?;
    show(value, out);
    Ok(())
}

// A program has a `main` of its own: this one call.
fn main(rt: HostRuntime) -> io::Result<()> {
    words::answer_lines(rt.alloc(), rt.stdin(), rt.stdout(), answer)
}
