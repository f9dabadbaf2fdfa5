// Starting and building. The lists come one by one, as C passes them.
#![tactic(auto, unfolding(crate::proofs::Opened::tables))]

ghost use Rattle.std.specs.Prelude.{◌≡◌};
ghost use Rattle.answers.specs.Answer.{answered};
ghost use Rattle.table.specs.Parameters.{record_of, lists, effect, done};
ghost use Rattle.table.specs.Starting as Starting;
ghost use Rattle.table.specs.Building as Building;

use crate::outputs::told;
use table::{Lent, Record, TableMut};

// Starts a table, whatever its lists hold. Refusals: 1 to 5.
#[unsafe(no_mangle)]
pub extern "C" fn gauzespar_start(
    n: usize,
    m: usize,
    g: f32,
    eta: f32,
    rho_samples: &mut [f32],
    radius_samples: &mut [f32],
    profile: &mut [f32],
    rho_eff: &mut [f32],
    profile_cdf: &mut [f32],
    marks: &mut [u8],
) -> u32
    ensures { effect (answered result done) (lists rho_samples.new radius_samples.new profile.new rho_eff.new profile_cdf.new marks.new)
        ≡ Starting.start (record_of n m g eta) (lists rho_samples.old radius_samples.old profile.old rho_eff.old profile_cdf.old marks.old) }
{
    let mut lists = Lent {
        rho_samples,
        radius_samples,
        profile,
        rho_eff,
        profile_cdf,
        marks,
    };
    told(table::start(Record { n, m, g, eta }, &mut lists))
}

// Builds a row. Refusals: 1 to 7.
#[unsafe(no_mangle)]
pub extern "C" fn gauzespar_build(
    n: usize,
    m: usize,
    g: f32,
    eta: f32,
    row: usize,
    rho_samples: &[f32],
    radius_samples: &[f32],
    profile: &mut [f32],
    rho_eff: &mut [f32],
    profile_cdf: &mut [f32],
    marks: &mut [u8],
) -> u32
    ensures { effect (answered result done) (lists rho_samples.now radius_samples.now profile.new rho_eff.new profile_cdf.new marks.new)
        ≡ Building.build (record_of n m g eta) row (lists rho_samples.now radius_samples.now profile.old rho_eff.old profile_cdf.old marks.old) }
{
    let mut t = TableMut {
        record: Record { n, m, g, eta },
        rho_samples,
        radius_samples,
        profile,
        rho_eff,
        profile_cdf,
        marks,
    };
    told(table::build(&mut t, row))
}
