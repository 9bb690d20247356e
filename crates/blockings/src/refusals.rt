// What is refused of the blocking call.
ghost use Rattle.std.specs.Prelude.{◌≡◌, ◌≤◌, length};
ghost use Rattle.plan.specs.Refusals.{number_of};
ghost use Rattle.blockings.specs.Blockings.{blockings_of, bad_factor_count, bad_word_count, blockings_refused};
ghost use Rattle.blockings.specs.Inner.Ready.{InRange};

use super::lists::{all_lists, is_listed};
use plan::Refusal;

// Refusal 3.
#[tactic(auto, unfolding(crate::specs::Blockings::bad_factor_count))]
fn bad_factor_count(k: u8) -> bool
    ensures { result ≡ bad_factor_count k }
{
    k < 2 || 5 < k
}

// Refusal 17.
#[tactic(auto, unfolding(crate::specs::Blockings::bad_word_count))]
fn bad_word_count(words: u8) -> bool
    ensures { result ≡ bad_word_count words }
{
    words < 1 || 3 < words
}

// How many lists block a plan.
fn count(k: u8, words: u8) -> usize
    requires { InRange k words }
    ensures { (result ≡ length (blockings_of k words)) × (result ≤ 32768) }
{
    let all = all_lists(k, words);
    let mut n = 0;
    for i in 0..all {
        if is_listed(k, words, i) {
            n += 1;
        }
    }
    n
}

// The first refusal that applies to a column of so many places.
#[tactic(auto, unfolding(crate::specs::Blockings::blockings_refused))]
pub fn check_blockings(k: u8, words: u8, room: usize) -> Result<(), Refusal>
    ensures { number_of result ≡ blockings_refused k words room }
{
    if bad_factor_count(k) {
        return Err(Refusal::Factors);
    }
    if bad_word_count(words) {
        return Err(Refusal::WordCount);
    }
    if room < count(k, words) * words as usize {
        return Err(Refusal::Room);
    }
    Ok(())
}
