// Sheets: the bytes of a plan, readings and marks that come from outside. Both calls take any bytes.
//
//   read(sheet, column)             the plan, and the readings in the column; or the first refusal that applies
//   plan_of(answer)                 the plan of such an answer, all zeros where the sheet is refused
//   marks(sheet)                    the part of the sheet that holds the marks
//   check_sheet(sheet, p, narrow)   the first refusal that applies to a sheet with such a plan
#![tactic(auto)]

mod calls;
mod refusals;

pub use calls::{marks, plan_of, read};
pub use refusals::check_sheet;
