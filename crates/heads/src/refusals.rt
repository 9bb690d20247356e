// What is refused of a plan in bytes.
ghost use Rattle.std.specs.Prelude.{◌≡◌, IfOk};
ghost use Rattle.plan.specs.Refusals.{number_of};
ghost use Rattle.heads.specs.Heads.{head_plan, head_refused};

use contents::{needless_repeats, plan_in};
use fields::bad_fields_with;
use plan::{Plan, Refusal, check};

// The plan in bytes that are the head of a sheet, or the first refusal that applies to them.
pub fn read_head(head: &[u8]) -> Result<Plan, Refusal>
    ensures number { number_of result ≡ head_refused head.now }
    ensures plan { IfOk result (λ p. p ≡ head_plan head.now) }
{
    if bad_fields_with(head, 0) {
        return Err(Refusal::Sheet);
    }
    let p = plan_in(head);
    check(p)?;
    if needless_repeats(head) {
        return Err(Refusal::Repeats);
    }
    Ok(p)
}

// The first refusal that applies to a plan in bytes.
pub fn check_head(head: &[u8]) -> Result<(), Refusal>
    ensures { number_of result ≡ head_refused head.now }
{
    read_head(head)?;
    Ok(())
}
