// What is refused of a call that reads one column and writes another.
ghost use Rattle.std.specs.Prelude.{not, ◌||◌, ◌≡◌, eqb};
ghost use Rattle.contrasts.specs.Limits.{value_limit};
ghost use Rattle.plan.specs.Refusals.{number_of};
ghost use Rattle.columns.specs.Refusals.{wrong_length, lengths_refused, columns_refused, readings_refused};

use super::scans::{any_reading_beyond, any_value_beyond};
use plan::{Plan, Refusal, check};
use sizes::{reading_count, runs};

// The first refusal that applies to the plan and to the lengths of the two columns. The one that is read is to have `count` places.
pub fn check_lengths(p: Plan, count: usize, read: usize, written: usize) -> Result<(), Refusal>
    ensures { number_of result ≡ lengths_refused p (not (eqb read count) || wrong_length p written) }
{
    check(p)?;
    if read != count || written != runs(p) {
        return Err(Refusal::Length);
    }
    Ok(())
}

// The same, and the values that are read.
pub fn check_values(p: Plan, from: &[i64], to: &[i64]) -> Result<(), Refusal>
    ensures { number_of result ≡ columns_refused value_limit p from.now to.now }
{
    check_lengths(p, runs(p), from.len(), to.len())?;
    if any_value_beyond(from) {
        return Err(Refusal::Beyond);
    }
    Ok(())
}

// The same for readings.
pub fn check_readings(p: Plan, readings: &[i32], totals: &[i64]) -> Result<(), Refusal>
    ensures { number_of result ≡ readings_refused p readings.now totals.now }
{
    check_lengths(p, reading_count(p), readings.len(), totals.len())?;
    if any_reading_beyond(p, readings) {
        return Err(Refusal::Beyond);
    }
    Ok(())
}
