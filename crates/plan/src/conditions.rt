// The conditions of refusals 2 to 8 and 16 of the table of refusals, a function each.
ghost use Rattle.std.specs.Prelude.{◌≡◌, ◌*◌, ◌^◌, ◌≤◌, length};
ghost use Rattle.words.specs.Words.{any};
ghost use Rattle.plan.specs.Plan.{combines_to};
ghost use Rattle.contrasts.specs.Limits.{is_repeats};
ghost use Rattle.plan.specs.Check.{bad_levels, bad_factors, bad_counts, bad_word, bad_sign, factor_word, loses_factor, bad_repeats};

use super::combinations::some_combination;
use words::{count_letters, has_beyond, is_among};

// Refusal 2.
#[tactic(auto, unfolding(crate::specs::Check::bad_levels))]
pub fn bad_levels(levels: u8) -> bool
    ensures { result ≡ bad_levels levels }
{
    levels != 2 && levels != 3
}

// Refusal 3.
#[tactic(auto, unfolding(crate::specs::Check::bad_factors, contrasts::specs::Limits::most_two, contrasts::specs::Limits::most_three))]
pub fn bad_factors(levels: u8, k: u8) -> bool
    ensures { result ≡ bad_factors levels k }
{
    let most = if levels == 2 { 10 } else { 6 };
    k == 0 || most < k
}

// Refusal 4.
#[tactic(auto, unfolding(crate::specs::Check::bad_counts))]
pub fn bad_counts(levels: u8, added: u8, blocks: u8) -> bool
    ensures { result ≡ bad_counts levels added blocks }
{
    6 < added || 4 < blocks || (levels == 3 && (0 < added || 1 < blocks))
}

// Whether the word has a letter beyond k, or too few letters.
#[tactic(auto, unfolding(crate::specs::Check::bad_word))]
fn bad_word(word: u16, k: usize, least: u32) -> bool
    ensures { result ≡ bad_word k least word }
{
    has_beyond(word, k) || count_letters(word) < least
}

#[tactic(auto, unfolding(words::specs::Words::any))]
pub fn any_bad_word(words: &[u16], k: usize, least: u32) -> bool
    ensures { result ≡ any (bad_word k least) words.now }
{
    words.iter().any(|word| bad_word(*word, k, least))
}

// Whether a sign is neither 0 nor 1.
#[tactic(auto, unfolding(words::specs::Words::any, crate::specs::Check::bad_sign))]
pub fn any_bad_sign(signs: &[u8]) -> bool
    ensures { result ≡ any bad_sign signs.now }
{
    signs.iter().any(|sign| 1 < *sign)
}

// Whether one or more of the words combine to the given one.
pub fn combines_to(word: u16, words: &[u16]) -> bool
    requires { length words.now ≤ 4 }
    ensures { result ≡ combines_to word words.now }
{
    some_combination(words, |other| other == word)
}

// Whether the word is a factor's: one letter, or an added factor's word.
#[tactic(auto, unfolding(crate::specs::Check::factor_word))]
fn is_factor(word: u16, added: &[u16]) -> bool
    ensures { result ≡ factor_word word added.now }
{
    count_letters(word) == 1 || is_among(word, added)
}

// Whether one or more of the block words combine to the word of a factor, whose effect would be lost.
pub fn loses_factor(added: &[u16], blocks: &[u16]) -> bool
    requires { length blocks.now ≤ 4 }
    ensures { result ≡ loses_factor added.now blocks.now }
{
    some_combination(blocks, |word| is_factor(word, added))
}

// Whether a run may be made so often.
#[tactic(auto, unfolding(contrasts::specs::Limits::is_repeats))]
fn is_repeats(repeats: u8) -> bool
    ensures { result ≡ is_repeats repeats }
{
    matches!(repeats, 1 | 2 | 4 | 8)
}

// How many readings so many runs have, each made so often.
pub fn times(runs: usize, repeats: u8) -> usize
    requires { runs ≤ 1024 }
    ensures { result ≡ runs * repeats }
{
    runs * (repeats as usize)
}

// Refusal 16, of a plan of so many runs.
#[tactic(auto, unfolding(crate::specs::Check::bad_repeats, contrasts::specs::Limits::most_readings))]
pub fn bad_repeats(runs: usize, repeats: u8) -> bool
    requires { runs ≤ 1024 }
    ensures { result ≡ bad_repeats runs repeats }
{
    !is_repeats(repeats) || 1024 < times(runs, repeats)
}
