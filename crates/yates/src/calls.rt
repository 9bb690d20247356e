// The pass call and the totals call: what they refuse, and then the passes.
ghost use Rattle.std.specs.Prelude.{◌≡◌};
ghost use Rattle.plan.specs.Outcome.{outcome};
ghost use Rattle.plan.specs.Refusals.{number_of};
ghost use Rattle.columns.specs.Refusals.{answer_outcome};
ghost use Rattle.yates.specs.Calls.{pass_refused, pass_column, totals_refused, totals_column};

use columns::{any_value_beyond, check_readings};
use passes::{form_totals, pass_over};
use plan::{Plan, Refusal, check};
use sizes::{runs, spacing};

// The first refusal that applies to a pass.
#[tactic(auto, using(plan::proofs::Laws::Answers::plan_stops), unfolding(crate::specs::Calls::pass_refused))]
fn check_pass(p: Plan, factor: usize, column: &[i64]) -> Result<(), Refusal>
    ensures { number_of result ≡ pass_refused p factor column.now }
{
    check(p)?;
    if (p.k as usize) <= factor {
        return Err(Refusal::NotInPlan);
    }
    if column.len() != runs(p) {
        return Err(Refusal::Length);
    }
    if any_value_beyond(column) {
        return Err(Refusal::Beyond);
    }
    Ok(())
}

// The pass of one factor over a column, in place.
#[tactic(auto, using(plan::proofs::Laws::Answers::refused_by, plan::proofs::Laws::Answers::left_alone), unfolding(crate::specs::Calls::pass_column))]
pub fn pass(p: Plan, factor: usize, column: &mut [i64]) -> Result<(), Refusal>
    ensures result_value { answer_outcome result ≡ outcome (pass_refused p factor column.old) tt }
    ensures column_after { column.new ≡ pass_column p factor column.old }
{
    check_pass(p, factor, column)?;
    pass_over(p.levels as usize, spacing(p, factor), column);
    Ok(())
}

// The totals of all effects.
#[tactic(auto, using(plan::proofs::Laws::Answers::refused_by, plan::proofs::Laws::Answers::left_alone), unfolding(crate::specs::Calls::totals_column))]
pub fn totals(p: Plan, readings: &[i32], totals: &mut [i64]) -> Result<(), Refusal>
    ensures result_value { answer_outcome result ≡ outcome (totals_refused p readings.now totals.old) tt }
    ensures totals_after { totals.new ≡ totals_column p readings.now totals.old }
{
    check_readings(p, readings, totals)?;
    form_totals(
        p.levels as usize,
        p.k as usize,
        p.repeats as usize,
        readings,
        totals,
    );
    Ok(())
}
