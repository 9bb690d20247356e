// Plans of experiments, and which of them are accepted.
//
//   check(p)                 accepted, or the refusal
//   Plan                     a plan; it lends the words that its counts admit: added_words, added_signs, block_words, three_words;
//                            and tells how many block words are sets of letters: word_count
//   Plan::whole(..)          the plan of base factors alone, by their levels, how many they are, and repeats
//   Refusal                  the refusals of all calls, by name; number() is that of the table
//   number_of(answer)        the number of an answer's refusal, and 0 where nothing is refused
// and for the crates above, for any plan:
//   runs(p)                  how many runs there are
//   reading_count(p)         how many readings
//   spacing(p, factor)       how far apart the values of a factor lie
//   three_word(p)            the block word of a three-level plan
//   word_row(p)              the row of the letters that it uses
//   three_block(..)          the block of a run by it
//   confounded(p, word)      whether the effect of a word is lost to blocks
// and for any words:
//   some_combination(..)     whether a test holds of a combination of one or more of them; false for 16 and more
#![tactic(auto)]

mod blocks;
mod checks;
mod combinations;
mod conditions;
mod confounding;
mod counts;
mod digits;
mod refusals;
mod types;

pub use blocks::{three_word, word_row};
pub use checks::check;
pub use combinations::some_combination;
pub use confounding::confounded;
pub use counts::{reading_count, runs, spacing};
pub use digits::three_block;
pub use refusals::{Refusal, number_of};
pub use types::Plan;
