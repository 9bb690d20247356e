// The sizes and limits of a plan, for the crates above, for any plan.
//
//   runs(p), reading_count(p), spacing(p, factor)   of the crate `plan`
//   reading_limit(p)                                how large a reading may be
//   run_limit(p)                                    how large a run sum may be
//   is_beyond(x, limit)                             whether a number is beyond a limit
#![tactic(auto)]

mod limits;

pub use limits::{is_beyond, reading_limit, run_limit};
pub use plan::{reading_count, runs, spacing};
