// The estimate call: the first refusal that applies, and else the mean, a difference, or lost to blocks.
ghost use Rattle.std.specs.Prelude.{◌≡◌, true, ◌^◌, ◌<◌, ◌≤◌, nat_abs};
ghost use Rattle.plan.specs.Check.{plan_refused};
ghost use Rattle.plan.specs.Outcome.{outcome};
ghost use Rattle.plan.specs.Refusals.{number_of};
ghost use Rattle.contrasts.specs.Limits.{is_repeats};
ghost use Rattle.estimates.specs.Quotient.{InDouble};
ghost use Rattle.estimates.specs.Estimate.{printed_total, exponent_of, value_by, total_limit, estimate_refused, estimate_value, value_of, estimate_outcome, ExactlyGiven};

use super::quotients::scaled;
use super::types::Estimate;
use plan::{Plan, Refusal, check, confounded};
use sizes::{is_beyond, run_limit};
use words::{has_beyond, is_odd_word};

// The limit of a total: 2 to the power k times that of a run sum.
// (A type for accepted plans would be made for three private functions alone: no plainer.)
fn total_limit(p: Plan) -> u32
    requires { (plan_refused p ≡ 0) × (p.levels ≡ 2) }
    ensures { result ≡ total_limit p }
{
    run_limit(p) << p.k
}

// The first refusal that applies.
fn check_estimate(p: Plan, effect: u16, total: i64) -> Result<(), Refusal>
    ensures { number_of result ≡ estimate_refused p effect total }
{
    check(p)?;
    if p.levels == 3 {
        return Err(Refusal::ThreeLevels);
    }
    if has_beyond(effect, p.k as usize) {
        return Err(Refusal::NotInPlan);
    }
    if is_beyond(total, total_limit(p)) {
        return Err(Refusal::Beyond);
    }
    Ok(())
}

// The total with the sign that journals print, high minus low: negated where the effect has an odd number of letters. A total of 0 stays 0,
// where a double would become negative zero.
fn printed(effect: u16, total: i64) -> i64
    requires { nat_abs total < 2 ^ 53 }
    ensures { (result ≡ printed_total effect total) × (nat_abs result < 2 ^ 53) }
{
    if is_odd_word(effect) {
        return -total;
    }
    total
}

// The power of two that r is, where a run may be made r times.
fn exponent(repeats: u8) -> usize
    requires { is_repeats repeats ≡ true }
    ensures { (result ≡ exponent_of repeats) × (result ≤ 3) }
{
    repeats.trailing_zeros() as usize
}

// The answer where nothing is refused, by whether the effect is lost, and by the power of two that there are readings.
fn value(lost: bool, power: usize, effect: u16, total: i64) -> Estimate
    requires { (0 < power) × InDouble total power }
    ensures { value_of result ≡ value_by lost power effect total }
{
    if lost {
        return Estimate::Lost;
    }
    if effect == 0 {
        return Estimate::Mean(scaled(total, power));
    }
    Estimate::Difference(scaled(printed(effect, total), power - 1))
}

// The mean or the difference by the total of an effect, or that the effect is lost to blocks.
pub fn estimate(p: Plan, effect: u16, total: i64) -> Result<Estimate, Refusal>
    ensures result_value { estimate_outcome result ≡ outcome (estimate_refused p effect total) (estimate_value p effect total) }
    ensures exactly_given { ExactlyGiven p effect total (estimate_outcome result) }
{
    check_estimate(p, effect, total)?;
    let lost = confounded(p, effect);
    let power = p.k as usize + exponent(p.repeats);
    Ok(value(lost, power, effect, total))
}
