// The table of a plan as numbers in places that the caller lends: its figures in 11 places, its checks in 2.
//
//   tabulate(p, readings, marks, totals, rows, figures, checks)   the table call
//   screened(the same)                                            the screening call
//   wrong_room(m, n)                                              whether slices of these lengths have no room for figures and checks
//
// The first two answer the refusal where the table is not made, and then no place that they were lent has changed.
#![tactic(auto)]

mod tabulated;

pub use tabulated::{screened, tabulate, wrong_room};
