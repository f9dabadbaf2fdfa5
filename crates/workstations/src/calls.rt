// The calls that follow a start, and what they answer.
use bssrdf::Drawn;
use bssrdf::coefficients::{Coefficients, WorldRadius};
use scattering::{RGBEnum, Spectrum};

// A query with its arguments.
#[derive(Clone, Copy)]
pub enum Query {
    Sr(Coefficients, WorldRadius),
    PdfSr(RGBEnum, Coefficients, WorldRadius),
    SampleSr(RGBEnum, Coefficients, f32, u32),
}

// A call with its arguments.
#[derive(Clone, Copy)]
pub enum Call {
    Build(usize),
    Ask(Query),
}

// What a call answers where it is not refused: that a row is built, or the value of a query. `Done` is
// one reply of four, and no sign that a value is missing.
#[derive(Clone, Copy)]
pub enum Reply {
    Done,
    Radiance(Spectrum),
    Density(f32),
    Drawn(Drawn),
}
