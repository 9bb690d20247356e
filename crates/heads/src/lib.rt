// A plan in bytes: the head of a sheet, which is its fields before the readings. So a program in another language hands over a plan of any kind.
// The bytes come from outside: both calls take any.
//
//   read_head(head)    the plan, or the first refusal that applies
//   check_head(head)   the first refusal that applies
#![tactic(auto)]

mod refusals;

pub use refusals::{check_head, read_head};
