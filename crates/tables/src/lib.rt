// The table as numbers in places that the caller lends: of a plan in bytes, of the screening profile, and of a sheet. They are for programs in
// other languages (crate `lithgorn`).
//
//   table(head, readings, marks, totals, rows, figures, checks)    the table of a plan in bytes
//   screen(the same)                                               the same by the screening profile
//   sheet_table(sheet, totals, rows, figures, checks)              the table of a sheet
//
// Each answers the refusal where it is not done, and then no place that it was lent has changed.
#![tactic(auto)]

mod calls;

pub use calls::{screen, sheet_table, table};
