// The two kinds of factors, of two levels and of three, and the passes of two factors of a kind in one go: a value is read and written once for
// both.
//
//   Level                                what a kind is: its numbers, and how one set of values is worked; `Two` and `Three` are the kinds
//   put_first::<L>(readings, column)     the passes of the first two factors, from the readings to a column
//   both_over::<L>(spacing, column)      those of two factors that follow each other, in place
#![tactic(auto)]

mod fours;
mod level;
mod nines;
mod pairs;
mod triples;
mod walks;

pub use fours::Two;
pub use level::Level;
pub use nines::Three;
pub use walks::{both_over, put_first};
