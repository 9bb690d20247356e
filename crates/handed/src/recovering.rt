// The recovery call, on the plan of a head.
ghost use Rattle.std.specs.Prelude.{◌≡◌};
ghost use Rattle.recovery.specs.Calls.{recover_refused, recover_column};
ghost use Rattle.plan.specs.Refusals.{number_of};
ghost use Rattle.heads.specs.Heads.{called, leaves};

use heads::read_head;
use plan::Refusal;

// The readings that have these totals; of runs that are made more than once, the run sums.
#[tactic(auto, using(plan::proofs::Laws::Answers::number_by, heads::specs::Laws::Called::called_off, heads::specs::Laws::Called::left_off, heads::specs::Laws::Called::called_as, heads::specs::Laws::Called::left_as))]
pub fn recover(head: &[u8], totals: &[i64], readings: &mut [i32]) -> Result<(), Refusal>
    ensures value { number_of result ≡ called head.now (λ p. recover_refused p totals.now readings.old) }
    ensures readings_after { readings.new ≡ leaves head.now (λ p. recover_column p totals.now readings.old) readings.old }
{
    let p = read_head(head)?;
    recovery::recover(p, totals, readings)
}
