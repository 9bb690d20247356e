// The text that is printed of a sheet: the table, or the line of its refusal.
//
//   print_sheet(sheet, text)           the text in the lent buffer, and its length
//   print_input(input, count, text)    the same of the first `count` bytes of a buffer into which a program has read its input
//   TEXT                               how many bytes the buffer of the text has, enough for every text
//   INPUT                              how many bytes the buffer of the input has, one more than the longest sheet
#![tactic(auto)]

mod calls;
mod row_texts;
mod tables;

pub use calls::{INPUT, TEXT, print_input, print_sheet};
