// Printing of columns.
use std::io;
use std::io::Stdout;
use worked::print_values;

// The rest of a line: a colon and the values of a column.
pub fn print_column(mut out: Stdout, column: &[i64]) -> io::Result<()> {
    print!(out; ":")?;
    print_values(&mut out, column)?;
    println!(out)
}
