// What is refused of columns: their lengths, refusal 11, and their values, refusal 12; and copies.
//
//   any_value_beyond(column)                a pass or a step refuses a value of it
//   any_reading_beyond(p, readings)         the totals and the table refuse a reading
//   check_lengths(p, count, read, written)  the first refusal of the plan and of the lengths of two columns
//   check_values(p, from, to)               the first refusal of a call that reads a column of values and writes another
//   check_readings(p, readings, totals)     and of one that reads readings
//   copy(readings, column)                  readings as the values of a column
//   copy_values(from, to)                   the values of a column to another
#![tactic(auto)]

mod bits;
mod copies;
mod refusals;
mod scans;

pub use copies::{copy, copy_values};
pub use refusals::{check_lengths, check_readings, check_values};
pub use scans::{any_reading_beyond, any_value_beyond};
