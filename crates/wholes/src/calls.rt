// The calls on a whole plan, each by the call on a plan.
ghost use Rattle.std.specs.Prelude.{◌≡◌};
ghost use Rattle.yates.specs.Calls.{pass_refused, pass_column, totals_refused, totals_column};
ghost use Rattle.recovery.specs.Calls.{recover_refused, recover_column};
ghost use Rattle.figures.specs.Numbers.{room_refused, call_refused, TableLeft};
ghost use Rattle.plan.specs.Plan.{whole_plan};
ghost use Rattle.plan.specs.Refusals.{number, number_of};

use figures::{tabulate, wrong_room};
use plan::{Plan, Refusal, check};

// The pass of one factor over a column, in place.
#[tactic(auto, using(plan::proofs::Laws::Answers::number_by))]
pub fn pass(levels: u8, k: u8, factor: usize, column: &mut [i64]) -> Result<(), Refusal>
    ensures value { number_of result ≡ pass_refused (whole_plan levels k 1) factor column.old }
    ensures column_after { column.new ≡ pass_column (whole_plan levels k 1) factor column.old }
{
    yates::pass(Plan::whole(levels, k, 1), factor, column)
}

// The totals of all effects.
#[tactic(auto, using(plan::proofs::Laws::Answers::number_by))]
pub fn totals(
    levels: u8,
    k: u8,
    repeats: u8,
    readings: &[i32],
    totals: &mut [i64],
) -> Result<(), Refusal>
    ensures value { number_of result ≡ totals_refused (whole_plan levels k repeats) readings.now totals.old }
    ensures totals_after { totals.new ≡ totals_column (whole_plan levels k repeats) readings.now totals.old }
{
    yates::totals(Plan::whole(levels, k, repeats), readings, totals)
}

// The readings that have these totals; of runs that are made more than once, the run sums.
#[tactic(auto, using(plan::proofs::Laws::Answers::number_by))]
pub fn recover(
    levels: u8,
    k: u8,
    repeats: u8,
    totals: &[i64],
    readings: &mut [i32],
) -> Result<(), Refusal>
    ensures value { number_of result ≡ recover_refused (whole_plan levels k repeats) totals.now readings.old }
    ensures readings_after { readings.new ≡ recover_column (whole_plan levels k repeats) totals.now readings.old }
{
    recovery::recover(Plan::whole(levels, k, repeats), totals, readings)
}

// The refusal of a call that has no room for its figures.
fn without_room(p: Plan) -> Refusal
    ensures { number result ≡ room_refused p }
{
    match check(p) {
        Ok(()) => Refusal::Length,
        Err(refusal) => refusal,
    }
}

// The analysis of variance: totals, row numerators, and the figures as 11 numbers and the checks as 2, in the order that `figure_numbers` and
// `check_numbers` give.
pub fn table(
    levels: u8,
    k: u8,
    repeats: u8,
    readings: &[i32],
    marks: &[u8],
    totals: &mut [i64],
    rows: &mut [u64],
    figures: &mut [u64],
    checks: &mut [i64],
) -> Result<(), Refusal>
    ensures { TableLeft
        (call_refused (whole_plan levels k repeats) readings.now marks.now
        totals.old rows.old figures.old checks.old)
        (whole_plan levels k repeats) readings.now marks.now
        totals.old rows.old figures.old checks.old
        (number_of result) totals.new rows.new figures.new checks.new }
{
    let p = Plan::whole(levels, k, repeats);
    if wrong_room(figures.len(), checks.len()) {
        return Err(without_room(p));
    }
    tabulate(p, readings, marks, totals, rows, figures, checks)
}
