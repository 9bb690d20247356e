// The walk over the totals: rows and sums of the table, formed in one go that reads each total once.
//
//   walk(p, totals, marks, rows)   writes the rows, and answers the sums
//   Sums                           numerators and degrees of the four kinds of rows, and the sum of the totals
//   square(x)                      a square
#![tactic(auto)]

mod bringing;
mod parts;
mod squares;
mod three_levels;
mod two_levels;
mod types;
mod walking;

pub use squares::square;
pub use types::Sums;
pub use walking::walk;
