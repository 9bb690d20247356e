// What a program does that reads a sheet from its input and prints its text.
//
//   read_input(reader, buffer)                   reads until the lent buffer is full or the input ends
//   Printer                                      the text that a program has for a sheet
//   print_text(printer, out, input, count)       writes the text of an input, of which so many bytes came
//   print_read(printer, reader, out)             reads an input and writes its text
//   Failure                                      why there is no text, or not all of it
#![tactic(auto)]

mod failures;
mod prints;
mod reads;

pub use failures::Failure;
pub use prints::{Printer, print_read, print_text};
pub use reads::read_input;
