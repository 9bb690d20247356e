// The plan check: the lowest of the numbers 2 to 8 that applies, and after these 16.
ghost use Rattle.std.specs.Prelude.{◌≡◌, ◌≤◌};
ghost use Rattle.plan.specs.Outcome.{outcome, lowest};
ghost use Rattle.plan.specs.Plan.{added_words, added_signs, block_words, three_words};
ghost use Rattle.plan.specs.Refusals.{number_of};
ghost use Rattle.plan.specs.Check.{bad_words, word_refusals, two_to_eight, plan_refused, check_outcome};

use super::conditions::{
    any_bad_sign, any_bad_word, bad_counts, bad_factors, bad_levels, bad_repeats, combines_to,
    loses_factor,
};
use super::counts::runs;
use super::digits::any_bad_digits;
use super::refusals::Refusal;
use super::types::Plan;
use words::is_repeated;

// Refusal 5, of the added words, the signs and the block words: sets of letters at two levels, numbers at three.
// (That k is at most 10 is what refusal 3 says, just before. A plan as a call is handed it may have any k, so it is no fact of the type.)
#[tactic(auto, unfolding(crate::specs::Check::bad_words))]
fn has_bad_word(p: &Plan) -> bool
    requires { p.now.k ≤ 10 }
    ensures { result ≡ bad_words p.now.k (added_words p.now) (added_signs p.now) (block_words p.now) (three_words p.now) }
{
    let k = p.k as usize;
    any_bad_word(p.added_words(), k, 2)
        || any_bad_sign(p.added_signs())
        || any_bad_word(p.block_words(), k, 1)
        || any_bad_digits(p.three_words(), k)
}

// Refusals 5 to 8.
#[tactic(auto, unfolding(crate::specs::Check::dependent))]
fn check_words(p: &Plan) -> Result<(), Refusal>
    requires { p.now.k ≤ 10 }
    ensures { number_of result ≡ lowest (word_refusals p.now.k (added_words p.now) (added_signs p.now) (block_words p.now) (three_words p.now)) }
{
    if has_bad_word(p) {
        return Err(Refusal::Word);
    }
    if is_repeated(p.added_words()) {
        return Err(Refusal::SameWord);
    }
    if combines_to(0, p.block_words()) {
        return Err(Refusal::Dependent);
    }
    if loses_factor(p.added_words(), p.block_words()) {
        return Err(Refusal::LostFactor);
    }
    Ok(())
}

// Refusals 2 to 8.
fn check_once(p: &Plan) -> Result<(), Refusal>
    ensures { number_of result ≡ lowest (two_to_eight p.now) }
{
    if bad_levels(p.levels) {
        return Err(Refusal::Levels);
    }
    if bad_factors(p.levels, p.k) {
        return Err(Refusal::Factors);
    }
    if bad_counts(p.levels, p.added, p.blocks) {
        return Err(Refusal::Counts);
    }
    check_words(p)
}

// Whether the plan is accepted, and the first refusal that applies where it is not.
pub fn check(p: Plan) -> Result<(), Refusal>
    ensures result_value { check_outcome result ≡ outcome (plan_refused p) tt }
    ensures number { number_of result ≡ plan_refused p }
{
    check_once(&p)?;
    if bad_repeats(runs(p), p.repeats) {
        return Err(Refusal::Repeats);
    }
    Ok(())
}
