// A query, one call and a list of calls, made on the lent lists.
ghost use Rattle.std.specs.Prelude.{◌≡◌, map, min, take, drop, length};
ghost use Rattle.table.specs.Parameters.{lists_of, lists_of_mut, SameTable, effect};
ghost use Rattle.workstations.specs.Calls as Calls;

use crate::calls::{Call, Query, Reply};
use answers::Refusal;
use bssrdf::{pdf_sr, sample_sr, sr};
use table::{Table, TableMut, build};

// A query. The lists are only read. Queries and calls are data, which the claim speaks of, so a match
// tells which to run.
#[tactic(auto, unfolding(answers::specs::Refusal::told, crate::specs::Calls::told, crate::specs::Calls::reply_value, crate::specs::Calls::ask, crate::specs::Calls::question, crate::specs::Calls::query_of, bssrdf::specs::Radiance::sr_told, bssrdf::specs::Radiance::sr, bssrdf::specs::Density::pdf_told, bssrdf::specs::Density::pdf_sr, bssrdf::specs::Drawing::drawn_told, bssrdf::specs::Drawing::sample_sr))]
pub fn ask(t: Table<'_>, q: Query) -> Result<Reply, Refusal>
    ensures { Calls.told result ≡ Calls.ask t.entry.record (lists_of t.entry) (Calls.query_of q) }
{
    match q {
        Query::Sr(c, x) => sr(t, c, x).map(Reply::Radiance),
        Query::PdfSr(ch, c, x) => pdf_sr(t, ch, c, x).map(Reply::Density),
        Query::SampleSr(ch, c, u, allowance) => {
            sample_sr(t, ch, c, u, allowance).map(Reply::Drawn)
        }
    }
}

// One call after a start, by a match like that of queries.
#[tactic(auto, unfolding(answers::specs::Refusal::told, table::specs::Parameters::outcome_told, crate::specs::Calls::told, crate::specs::Calls::reply_value, crate::specs::Calls::step, crate::specs::Calls::call_of))]
pub fn step(t: &mut TableMut<'_>, call: Call) -> Result<Reply, Refusal>
    ensures effect { effect (Calls.told result) (lists_of_mut t.new) ≡ Calls.step t.old.record (lists_of_mut t.old) (Calls.call_of call) }
    ensures same { SameTable t.old t.new }
{
    match call {
        Call::Build(i) => build(t, i).map(|()| Reply::Done),
        Call::Ask(q) => ask(t.table(), q),
    }
}

// Makes as many calls as both lists have places for, each on the lists as the one before left them.
// As many answers are theirs, and the rest stay. By index, since a proof knows no element that `zip`
// over `iter_mut` lends.
pub fn make(t: &mut TableMut<'_>, calls: &[Call], answers: &mut [Result<Reply, Refusal>])
    ensures made { let n = min (length calls.now) (length answers.old) in
        map Calls.told (take n answers.new) ≡ (Calls.run t.old.record (lists_of_mut t.old) (map Calls.call_of (take n calls.now))).answers }
    ensures rest { let n = min (length calls.now) (length answers.old) in drop n answers.new ≡ drop n answers.old }
    ensures lists_after { let n = min (length calls.now) (length answers.old) in
        lists_of_mut t.new ≡ (Calls.run t.old.record (lists_of_mut t.old) (map Calls.call_of (take n calls.now))).lists }
    ensures same { SameTable t.old t.new }
{
    let count = calls.len().min(answers.len());
    for j in 0..count {
        answers[j] = step(t, calls[j]);
    }
}

// The same of the first n calls of an array, or of all where n is larger, for a caller that lends no list:
// the answers are returned, and the first n are theirs.
pub fn make_batch<const N: usize>(
    t: &mut TableMut<'_>,
    calls: [Call; N],
    n: usize,
) -> [Result<Reply, Refusal>; N]
    ensures answers { map Calls.told (take n result) ≡ (Calls.run t.old.record (lists_of_mut t.old) (map Calls.call_of (take n calls.entry))).answers }
    ensures lists_after { lists_of_mut t.new ≡ (Calls.run t.old.record (lists_of_mut t.old) (map Calls.call_of (take n calls.entry))).lists }
    ensures same { SameTable t.old t.new }
{
    let mut answers = [Ok(Reply::Done); N];
    make(t, &calls[..n.min(N)], &mut answers);
    answers
}
