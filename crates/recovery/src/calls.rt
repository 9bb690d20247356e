// The recovery call.
ghost use Rattle.std.specs.Prelude.{◌≡◌, cond};
ghost use Rattle.contrasts.specs.Recovery.{readings_back, no_readings};
ghost use Rattle.plan.specs.Limits.{run_limit};
ghost use Rattle.plan.specs.Outcome.{outcome};
ghost use Rattle.plan.specs.Plan.{factors_of};
ghost use Rattle.plan.specs.Refusals.{number_of};
ghost use Rattle.columns.specs.Refusals.{answer_outcome};
ghost use Rattle.recovery.specs.Calls.{recover_refused, recover_column};
ghost use Rattle.recovery.specs.Inner.Answered.{Answered};
ghost use Rattle.recovery.specs.Inner.Lent.{Judgeable, Lent, Worked};

use super::quotients::{divide, put};
use super::sums::sum_back;
use columns::{any_value_beyond, check_lengths, copy_values};
use plan::{Plan, Refusal};
use sizes::{run_limit, runs};

// The most runs of a plan.
const MOST: usize = 1024;

// Of totals that a pass admits: the one column that could have them, and the refusal where it is none of readings within the limit.
fn judge(p: Plan, totals: &[i64], column: &mut [i64]) -> Result<(), Refusal>
    requires { Judgeable p totals.now column.old }
    ensures value { number_of result ≡ cond (no_readings (factors_of p) (run_limit p) totals.now) 14 0 }
    ensures column_after { column.new ≡ readings_back (factors_of p) totals.now }
{
    copy_values(totals, column);
    let denominator = sum_back(p.levels as usize, p.k as usize, column);
    if divide(column, denominator, run_limit(p)) {
        Err(Refusal::NoReadings)
    } else {
        Ok(())
    }
}

// Judges such totals in a working column, and writes the readings where there are any.
fn work(p: Plan, totals: &[i64], column: &mut [i64], readings: &mut [i32]) -> Result<(), Refusal>
    requires { Worked p totals.now column.old readings.old }
    ensures { Answered p totals.now readings.old readings.new (answer_outcome result) }
{
    judge(p, totals, column)?;
    put(column, readings);
    Ok(())
}

// The same, with a working column on the stack.
fn lend(p: Plan, totals: &[i64], readings: &mut [i32]) -> Result<(), Refusal>
    requires { Lent p totals.now readings.old }
    ensures { Answered p totals.now readings.old readings.new (answer_outcome result) }
{
    let mut column = [0i64; MOST];
    let n = totals.len();
    work(p, totals, &mut column[..n], readings)
}

// Writes the readings that have these totals; where runs are made more than once, the sums of runs. A total beyond what a pass admits is that
// of no readings.
pub fn recover(p: Plan, totals: &[i64], readings: &mut [i32]) -> Result<(), Refusal>
    ensures result_value { answer_outcome result ≡ outcome (recover_refused p totals.now readings.old) tt }
    ensures readings_after { readings.new ≡ recover_column p totals.now readings.old }
{
    check_lengths(p, runs(p), totals.len(), readings.len())?;
    if any_value_beyond(totals) {
        return Err(Refusal::NoReadings);
    }
    lend(p, totals, readings)
}
