// The lines of a printed table. Each call writes a line at the end of a text, as far as its buffer has places.
//
//   named_line(text, name, n)                         a name and a number
//   source_line(text, name, degrees, numerator)       a name, degrees and numerator
//   check_line(text, totals, readings)                both check numbers
//   row_line(text, row, degrees, numerator, kind)     a row: its label, degrees, numerator and, if so, `error` or `blocks`
#![tactic(auto)]

mod fields;
mod printed;

pub use printed::{check_line, named_line, row_line, source_line};
