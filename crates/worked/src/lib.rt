// What the programs of the gate share.
//
//   read_whole(reader, buffer)          so many bytes of the input, if it has them
//   read_record(reader, space)          a record of the input
//   print_values(out, values)           each value after a space
//   print_refusal(out, refusal)         a refusal by its number
//   number_in(bytes)                    the number of eight bytes, in two's complement
//   kept(column, before)                how many places hold what they held before a call
//   checksum(values, factor, modulus)   a number that tells all values and their order
#![tactic(auto)]

mod columns;
mod numbers;
mod prints;
mod reads;

pub use columns::{checksum, kept};
pub use numbers::number_in;
pub use prints::{print_refusal, print_values};
pub use reads::{MOST_RECORD, read_record, read_whole};
