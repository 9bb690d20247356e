// Readings back from totals, for authors who archive only the totals.
//
//   recover(p, totals, readings)   the readings that have these totals; where runs are made more than once, the sums of runs
#![tactic(auto)]

mod calls;
mod quotients;
mod sums;

pub use calls::recover;
