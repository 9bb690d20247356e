// Estimates: the mean and the differences of two-level plans, from their totals.
//
//   estimate(p, effect, total)   the mean or a difference, as the double that it exactly is, or lost to blocks
//   Estimate                     what it answers where nothing is refused
#![tactic(auto)]

mod effects;
mod quotients;
mod types;

pub use effects::estimate;
pub use types::Estimate;
