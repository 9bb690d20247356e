// Totals of effects: the pass and the report's step over a column that the caller lends, and all totals at once from the readings.
//
//   pass(p, factor, column)       the pass of one factor, in place
//   step(p, from, to)             the report's own step, from one column to another: of the crate `steps`
//   totals(p, readings, totals)   the totals of all effects
#![tactic(auto)]

mod calls;

pub use calls::{pass, totals};
pub use steps::step;
