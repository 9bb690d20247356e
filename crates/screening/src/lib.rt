// The screening profile: a narrower table call, for papers on main effects alone.
//
//   screen(p, readings, marks, totals, rows)   the table call's table, of a two-level plan in which no main effect meets an interaction of two
//                                              factors, with no main effect marked as error
#![tactic(auto)]

mod calls;
mod mains;
mod pairs;
mod refusals;

pub use calls::screen;
