// Every way to block a small plan: all lists of strictly rising block words that the plan check accepts.
//
//   blockings(k, words, column)   writes the lists of so many words, and answers how many there are
//   blocked_plan(k, list)         the plan of two levels with these block words, the first four at most, and nothing else
#![tactic(auto)]

mod calls;
mod lists;
mod refusals;

pub use calls::blockings;
pub use lists::blocked_plan;
