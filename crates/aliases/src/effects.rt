// The alias call: each added letter of an effect is replaced by its word.
ghost use Rattle.std.specs.Prelude.{◌≡◌, cond, not, ◌&&◌, ◌%◌, ◌^◌, ◌≤◌, ◌<◌, eqb};
ghost use Rattle.algebra.specs.Tests.{differ};
ghost use Rattle.words.specs.Words.{odd, odd_word};
ghost use Rattle.plan.specs.Outcome.{outcome};
ghost use Rattle.plan.specs.Plan.{added_words, added_signs};
ghost use Rattle.aliases.specs.Alias.{sign_ones, base_word, turned, alias_refused, alias_values, alias_outcome};

use super::types::Alias;
use plan::{Plan, Refusal, check};
use words::{combine, has_beyond, has_letter, is_odd_word};

// The base letters of an effect.
fn base_letters(effect: u16, k: usize) -> u16
    requires { k < 16 }
    ensures { result ≡ effect % 2 ^ k }
{
    effect % (1u16 << k)
}

// 1 for a letter that is replaced and has sign 1, and else 0.
fn one_sign(replaced: bool, sign: u8) -> usize
    ensures { (result ≡ cond (replaced && eqb sign 1) 1 0) × (result ≤ 1) }
{
    usize::from(replaced && sign == 1)
}

// How many letters are replaced that have sign 1, bit j for added factor j.
fn count_signs(replaced: u16, signs: &[u8]) -> usize
    ensures { result ≡ sign_ones replaced signs.now }
{
    let mut n = 0;
    for (j, sign) in signs.iter().enumerate() {
        n += one_sign(has_letter(replaced, j), *sign);
    }
    n
}

// Whether the sign turns, by the number of replaced letters with sign 1: where that is odd; the other way round where the effect and its base
// word differ in being odd or even.
fn is_turned(effect: u16, word: u16, signs: usize) -> bool
    ensures { result ≡ cond (differ (odd_word effect) (odd_word word)) (not (odd signs)) (odd signs) }
{
    let reversed = is_odd_word(effect) != is_odd_word(word);
    (signs % 2 == 1) != reversed
}

// The alias of an effect of a plan of two levels.
#[tactic(auto, unfolding(crate::specs::Alias::base_word, crate::specs::Alias::turned, crate::specs::Alias::odd_signs))]
fn reduced(p: &Plan, effect: u16) -> Alias
    requires { p.now.k ≤ 10 }
    ensures { result ≡ record { word = base_word p.now.k (added_words p.now) effect; turned = turned p.now.k (added_words p.now) (added_signs p.now) effect } }
{
    let k = p.k as usize;
    let replaced = effect >> k;
    let word = combine(base_letters(effect, k), replaced, p.added_words());
    let turned = is_turned(effect, word, count_signs(replaced, p.added_signs()));
    Alias { word, turned }
}

// The base word that the effect reduces to, and whether the sign turns.
#[tactic(auto, using(plan::proofs::Laws::Answers::refused_first), unfolding(crate::specs::Alias::alias_refused))]
pub fn alias(p: Plan, effect: u16) -> Result<Alias, Refusal>
    ensures { alias_outcome result ≡ outcome (alias_refused p effect) (alias_values p effect) }
{
    check(p)?;
    if p.levels == 3 {
        return Err(Refusal::ThreeLevels);
    }
    if has_beyond(effect, p.k as usize + p.added_words().len()) {
        return Err(Refusal::NotInPlan);
    }
    Ok(reduced(&p, effect))
}
