// Columns of a plan in bytes, and what a sheet holds, in places that the caller lends. They are for programs in other languages (crate
// `lithgorn`).
//
//   pass(head, factor, column)              the pass of one factor, in place
//   step(head, from, to)                    the report's step
//   totals(head, readings, totals)          the totals of all effects
//   recover(head, totals, readings)         the readings that have these totals
//   read(sheet, readings, span)             the readings of a sheet, and how many of its first bytes are its plan
//   marks(sheet)                            how many of its last bytes are its marks
//
// Each but the last answers the refusal where it is not done, and then no place that it was lent has changed.
#![tactic(auto)]

mod passing;
mod recovering;
mod sheets;
mod stepping;
mod totalling;

pub use passing::pass;
pub use recovering::recover;
pub use sheets::{marks, read};
pub use stepping::step;
pub use totalling::totals;
