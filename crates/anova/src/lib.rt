// The analysis of variance: the table of a plan's effects, and the estimates of two-level effects.
//
//   table(p, readings, marks, totals, rows)         totals, row numerators and the figures of the table
//   Figures, Source, Checks                         what it gives where nothing is refused
//   check_table(p, readings, marks, totals, rows)   the first refusal that applies
//   estimate(p, effect, total), Estimate            of the crate `estimates`
#![tactic(auto)]

mod amounts;
mod refusals;
mod rounds;
mod squares;
mod tables;
mod types;

pub use estimates::{Estimate, estimate};
pub use refusals::check_table;
pub use tables::table;
pub use types::{Checks, Figures, Source};
