// The calls on the six lists that a table lends. Each is given its line, the lists and the output, as
// every arm of `answer` gives them.
use crate::free::answered;
use bssrdf::{Coefficients, WorldRadius};
use lists::Lists;
use scattering::{RGBEnum, Spectrum};
use table::Record;
use words::{Line, Malformed, Output};
use workstations::{Call, Query, Reply};

// ---- arguments

fn record(line: &mut Line<'_>) -> Result<Record, Malformed> {
    let [n, m] = line.numbers::<usize, 2>()?;
    let [g, eta] = line.numbers::<f32, 2>()?;
    Ok(Record::new(n, m, g, eta))
}

fn coefficients(line: &mut Line<'_>) -> Result<Coefficients, Malformed> {
    let sigma_a = Spectrum::from(line.numbers::<f32, 3>()?);
    let sigma_s = Spectrum::from(line.numbers::<f32, 3>()?);
    Ok(Coefficients { sigma_a, sigma_s })
}

fn channel(line: &mut Line<'_>) -> Result<RGBEnum, Malformed> {
    RGBEnum::try_from(line.number::<u32>()?).map_err(|_| Malformed)
}

// ---- answers

fn drawn(radius: f32, rounds: u32, out: &mut Output) {
    out.values(b"value", &[radius]);
    out.int(rounds);
}

fn tell(reply: Reply, out: &mut Output) {
    match reply {
        Reply::Done => out.text(b"done"),
        Reply::Radiance(s) => out.values(b"value", &<[f32; 3]>::from(s)),
        Reply::Density(density) => out.values(b"value", &[density]),
        Reply::Drawn(d) => drawn(d.radius, d.rounds, out),
    }
}

// ---- the calls

fn step(r: Record, call: Call, lists: &mut Lists, out: &mut Output) {
    let result = workstations::step(&mut lists.table(r), call);
    answered(result, out, tell);
}

pub(crate) fn start(
    mut line: Line<'_>,
    lists: &mut Lists,
    out: &mut Output,
) -> Result<(), Malformed> {
    let r = record(&mut line)?;
    line.end()?;
    let result = table::start(r, &mut lists.lent());
    answered(result, out, |(), out| out.text(b"done"));
    Ok(())
}

pub(crate) fn build(
    mut line: Line<'_>,
    lists: &mut Lists,
    out: &mut Output,
) -> Result<(), Malformed> {
    let r = record(&mut line)?;
    let row = line.number::<usize>()?;
    line.end()?;
    step(r, Call::Build(row), lists, out);
    Ok(())
}

// A query on a table, which `query` reads after the record and the coefficients.
fn ask<'a, F: FnOnce(Coefficients, Line<'a>) -> Result<Query, Malformed>>(
    mut line: Line<'a>,
    lists: &mut Lists,
    out: &mut Output,
    query: F,
) -> Result<(), Malformed>
    requires { F.IsAlwaysCallable query }
{
    let r = record(&mut line)?;
    let c = coefficients(&mut line)?;
    let query = query(c, line)?;
    step(r, Call::Ask(query), lists, out);
    Ok(())
}

pub(crate) fn sr(line: Line<'_>, lists: &mut Lists, out: &mut Output) -> Result<(), Malformed> {
    ask(line, lists, out, |c, line| {
        let x = WorldRadius(line.last()?);
        Ok(Query::Sr(c, x))
    })
}

pub(crate) fn pdf_sr(line: Line<'_>, lists: &mut Lists, out: &mut Output) -> Result<(), Malformed> {
    ask(line, lists, out, |c, mut line| {
        let ch = channel(&mut line)?;
        let x = WorldRadius(line.last()?);
        Ok(Query::PdfSr(ch, c, x))
    })
}

pub(crate) fn sample_sr(
    line: Line<'_>,
    lists: &mut Lists,
    out: &mut Output,
) -> Result<(), Malformed> {
    ask(line, lists, out, |c, mut line| {
        let ch = channel(&mut line)?;
        let u = line.number()?;
        let allowance = line.number()?;
        line.end()?;
        Ok(Query::SampleSr(ch, c, u, allowance))
    })
}
