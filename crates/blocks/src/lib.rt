// The block amount of a three-level plan: what its three blocks bring.
//
//   block_amount(k, word, column)   its numerator, from the run sums
#![tactic(auto)]

mod amounts;

pub use amounts::block_amount;
