// The pass of one factor, on the plan of a head.
ghost use Rattle.std.specs.Prelude.{◌≡◌};
ghost use Rattle.yates.specs.Calls.{pass_refused, pass_column};
ghost use Rattle.plan.specs.Refusals.{number_of};
ghost use Rattle.heads.specs.Heads.{called, leaves};

use heads::read_head;
use plan::Refusal;

// The pass of one factor over a column, in place.
#[tactic(auto, using(plan::proofs::Laws::Answers::number_by, heads::specs::Laws::Called::called_off, heads::specs::Laws::Called::left_off, heads::specs::Laws::Called::called_as, heads::specs::Laws::Called::left_as))]
pub fn pass(head: &[u8], factor: usize, column: &mut [i64]) -> Result<(), Refusal>
    ensures value { number_of result ≡ called head.now (λ p. pass_refused p factor column.old) }
    ensures column_after { column.new ≡ leaves head.now (λ p. pass_column p factor column.old) column.old }
{
    let p = read_head(head)?;
    yates::pass(p, factor, column)
}
