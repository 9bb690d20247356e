// Runs that are made more than once: the sums of their readings.
//
//   run_sum(readings, repeats, run)        the sum of a run's readings
//   sum_runs(readings, repeats, column)    the sums of all runs, in a column with a place for each
#![tactic(auto)]

mod sums;

pub use sums::{run_sum, sum_runs};
