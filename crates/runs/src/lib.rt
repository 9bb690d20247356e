// Runs of plans.
//
//   run(p, number)   the letters that are high in a run, added factors included, and its block; at three levels no letters, and the block
//   Run              both
#![tactic(auto)]

mod powers;
mod treatments;
mod types;

pub use treatments::run;
pub use types::Run;
