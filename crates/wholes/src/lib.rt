// The calls on a whole plan, by its levels, k and, but for the pass, how often its runs are made: no added factors, no block words. The pass works
// on a column with a place for each run, and is that of the plan whose runs are made once. They are for programs in other languages (crate `lithgorn`).
//
//   pass(levels, k, factor, column)                 the pass of one factor, in place
//   totals(levels, k, repeats, readings, totals)    the totals of all effects
//   recover(levels, k, repeats, totals, readings)   the readings that have these totals; of runs that are made more than once, the run sums
//   table(levels, k, repeats, readings, marks, totals, rows, figures, checks)   the analysis of variance
//
// Each answers the refusal where it is not done, and then no place that it was lent has changed.
#![tactic(auto)]

mod calls;

pub use calls::{pass, recover, table, totals};
