// Passes over a column: of one factor in place, and of all factors from the readings.
//
//   pass_over(levels, spacing, column)                   the pass of a factor whose values lie the given distance apart
//   form_totals(levels, k, repeats, readings, column)    the passes of k factors over run sums, which leave the totals of all effects
#![tactic(auto)]

mod stretches;
mod totals;

pub use stretches::pass_over;
pub use totals::form_totals;
