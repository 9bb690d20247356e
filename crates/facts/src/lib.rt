// Single answers on a plan in bytes, in places that the caller lends; and every way to block a small plan. They are for programs in other
// languages (crate `lithgorn`).
//
//   check(head)                                  the plan check
//   run(head, number, high, block)               the letters that are high in a run, and its block
//   alias(head, effect, word, turned)            the base word that an effect reduces to, and whether the sign turns, 1 or 0
//   estimate(head, effect, total, kind, value)   the mean or a difference as a double, or that the effect is lost to blocks: 0, 1 or 2 in `kind`
//   blockings(k, words, column, lists)           every list of block words, and how many there are
//
// Each answers the refusal where it is not done, and then no place that it was lent has changed.
#![tactic(auto)]

mod blocks;
mod plans;

pub use blocks::blockings;
pub use plans::{alias, check, estimate, run};
