// The effects of a plan: the row that each belongs to, its divisor and its weight.
//
//   rows(p)                   the row of each effect
//   divisors(p)               the divisor of each effect
//   weights(p)                the weight of each effect
//   put_rows(p, rows)         the rows, put in the places of a lent list
//   put_weights(p, weights)   the weights likewise
#![tactic(auto)]

mod constants;
mod fewer;
mod letters;
mod shares;
mod weighing;

pub use letters::{put_rows, rows};
pub use shares::divisors;
pub use weighing::{put_weights, weights};
