// The report's step, on the plan of a head.
ghost use Rattle.std.specs.Prelude.{◌≡◌};
ghost use Rattle.steps.specs.Step.{step_refused, step_column};
ghost use Rattle.plan.specs.Refusals.{number_of};
ghost use Rattle.heads.specs.Heads.{called, leaves};

use heads::read_head;
use plan::Refusal;

// The report's step, from one column to another.
#[tactic(auto, using(plan::proofs::Laws::Answers::number_by, heads::specs::Laws::Called::called_off, heads::specs::Laws::Called::left_off, heads::specs::Laws::Called::called_as, heads::specs::Laws::Called::left_as))]
pub fn step(head: &[u8], from: &[i64], to: &mut [i64]) -> Result<(), Refusal>
    ensures value { number_of result ≡ called head.now (λ p. step_refused p from.now to.old) }
    ensures to_after { to.new ≡ leaves head.now (λ p. step_column p from.now to.old) to.old }
{
    let p = read_head(head)?;
    yates::step(p, from, to)
}
