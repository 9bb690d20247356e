// What the table call refuses.
ghost use Rattle.std.specs.Prelude.{◌≡◌};
ghost use Rattle.plan.specs.Check.{plan_refused};
ghost use Rattle.plan.specs.Refusals.{number_of};
ghost use Rattle.anova.specs.Table.{wrong_lengths, table_refused};

use columns::any_reading_beyond;
use plan::{Plan, Refusal, check};
use rows::{bad_marks, row_count};
use sizes::{reading_count, runs};

// Refusal 11, of an accepted plan.
// (A type for accepted plans would be made for three private functions alone: no plainer.)
#[tactic(auto, using(crate::proofs::Judged::lengths_are))]
fn wrong_lengths(p: Plan, readings: usize, marks: usize, totals: usize, rows: usize) -> bool
    requires { plan_refused p ≡ 0 }
    ensures { result ≡ wrong_lengths p readings marks totals rows }
{
    let row_count = row_count(p);
    readings != reading_count(p) || totals != runs(p) || rows != row_count || marks != row_count
}

// The first refusal that applies.
pub fn check_table(
    p: Plan,
    readings: &[i32],
    marks: &[u8],
    totals: &[i64],
    rows: &[u64],
) -> Result<(), Refusal>
    ensures { number_of result ≡ table_refused p readings.now marks.now totals.now rows.now }
{
    check(p)?;
    if wrong_lengths(p, readings.len(), marks.len(), totals.len(), rows.len()) {
        return Err(Refusal::Length);
    }
    if any_reading_beyond(p, readings) {
        return Err(Refusal::Beyond);
    }
    if bad_marks(p, marks) {
        return Err(Refusal::Marks);
    }
    Ok(())
}
