// Numbers as the bytes of a sheet write them, the highest byte first.
//
//   byte(body, place)     one byte of some bytes
//   pair(high, low)       a number of two bytes
//   reading(a, b, c, d)   a number of four, in two's complement
#![tactic(auto)]

mod numbers;

pub use numbers::{byte, pair, reading};
