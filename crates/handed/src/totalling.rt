// The totals call, on the plan of a head.
ghost use Rattle.std.specs.Prelude.{◌≡◌};
ghost use Rattle.yates.specs.Calls.{totals_refused, totals_column};
ghost use Rattle.plan.specs.Refusals.{number_of};
ghost use Rattle.heads.specs.Heads.{called, leaves};

use heads::read_head;
use plan::Refusal;

// The totals of all effects.
#[tactic(auto, using(plan::proofs::Laws::Answers::number_by, heads::specs::Laws::Called::called_off, heads::specs::Laws::Called::left_off, heads::specs::Laws::Called::called_as, heads::specs::Laws::Called::left_as))]
pub fn totals(head: &[u8], readings: &[i32], totals: &mut [i64]) -> Result<(), Refusal>
    ensures value { number_of result ≡ called head.now (λ p. totals_refused p readings.now totals.old) }
    ensures totals_after { totals.new ≡ leaves head.now (λ p. totals_column p readings.now totals.old) totals.old }
{
    let p = read_head(head)?;
    yates::totals(p, readings, totals)
}
