// The calls on a caller's own lists: two of nodes, values and a CDF.
use crate::free::answered;
use interpolation::sample::Sample;
use interpolation::weights::Weights;
use lists::{Lists, Own};
use words::{Line, Malformed, Output};

fn tell_weights(weights: Option<Weights>, out: &mut Output) {
    match weights {
        Some(Weights { offset, four }) => {
            out.text(b"value");
            out.int(offset);
            out.entries(&<[f32; 4]>::from(four));
        }
        None => out.text(b"outside"),
    }
}

pub(crate) fn weights(
    line: Line<'_>,
    lists: &mut Lists,
    out: &mut Output,
) -> Result<(), Malformed> {
    let x = line.last()?;
    let Own { nodes1, .. } = lists.own();
    answered(interpolation::own::weights(nodes1, x), out, tell_weights);
    Ok(())
}

pub(crate) fn integrate(
    line: Line<'_>,
    lists: &mut Lists,
    out: &mut Output,
) -> Result<(), Malformed> {
    line.end()?;
    let Own {
        nodes1,
        values,
        cdf,
        ..
    } = lists.own();
    let result = interpolation::own::integrate(nodes1, values, cdf);
    answered(result, out, |sum, out| out.values(b"value", &[sum]));
    Ok(())
}

fn tell_sample(sample: Option<Sample>, out: &mut Output) {
    match sample {
        Some(s) => {
            out.values(b"value", &[s.position, s.value, s.density]);
            out.int(s.rounds);
        }
        None => out.text(b"outside 00000000 0"),
    }
}

pub(crate) fn sample_2d(
    mut line: Line<'_>,
    lists: &mut Lists,
    out: &mut Output,
) -> Result<(), Malformed> {
    let [alpha, u] = line.numbers::<f32, 2>()?;
    let allowance = line.number()?;
    line.end()?;
    let Own {
        nodes1,
        nodes2,
        values,
        cdf,
    } = lists.own();
    let result = interpolation::own::sample_2d(nodes1, nodes2, values, cdf, alpha, u, allowance);
    answered(result, out, tell_sample);
    Ok(())
}
