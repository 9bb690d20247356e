// The report's own step.
//
//   step(p, from, to)   from one column to another
#![tactic(auto)]

mod sets;

pub use sets::step;
