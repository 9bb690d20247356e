// The report's own step: all sums first, then the differences, at three levels then the third combination. Two and three levels have a loop each,
// since all that these do is to combine the values of a set, and that is what differs.
ghost use Rattle.std.specs.Prelude.{◌≡◌, length};
ghost use Rattle.contrasts.specs.Columns.{step_of};
ghost use Rattle.contrasts.proofs.Factors.{two, three};
ghost use Rattle.plan.specs.Outcome.{outcome};
ghost use Rattle.columns.specs.Refusals.{answer_outcome};
ghost use Rattle.steps.specs.Step.{step_refused, step_column};
ghost use Rattle.steps.specs.Inner.Ready.{Sets};

use columns::check_values;
use plan::{Plan, Refusal};

// The step at two levels, of so many pairs of successive values.
fn step_two(from: &[i64], to: &mut [i64], pairs: usize)
    requires { Sets 2 pairs from.now to.old }
    ensures { to.new ≡ step_of (length from.now) two from.now }
{
    for i in 0..pairs {
        let at = 2 * i;
        let first = from[at];
        let second = from[at + 1];
        let j = i + pairs;
        to[i] = first + second;
        to[j] = first - second;
    }
}

// The step at three levels, of so many sets of three successive values.
fn step_three(from: &[i64], to: &mut [i64], sets: usize)
    requires { Sets 3 sets from.now to.old }
    ensures { to.new ≡ step_of (length from.now) three from.now }
{
    for i in 0..sets {
        let at = 3 * i;
        let first = from[at];
        let middle = from[at + 1];
        let third = from[at + 2];
        let j = i + sets;
        let k = i + 2 * sets;
        to[i] = first + middle + third;
        to[j] = first - third;
        to[k] = first - 2 * middle + third;
    }
}

// The step from one column to another.
#[tactic(auto, using(plan::proofs::Laws::Answers::refused_by, plan::proofs::Laws::Answers::left_alone), unfolding(crate::specs::Step::step_column))]
pub fn step(p: Plan, from: &[i64], to: &mut [i64]) -> Result<(), Refusal>
    ensures result_value { answer_outcome result ≡ outcome (step_refused p from.now to.old) tt }
    ensures to_after { to.new ≡ step_column p from.now to.old }
{
    check_values(p, from, to)?;
    if p.levels == 2 {
        step_two(from, to, from.len() / 2);
    } else {
        step_three(from, to, from.len() / 3);
    }
    Ok(())
}
