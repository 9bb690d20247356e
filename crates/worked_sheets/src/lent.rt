// The column that is lent: what it holds before the call, and what of it is written.
ghost use Rattle.std.specs.Prelude.{◌≤◌, length};

use std::io::Stdout;
use std::{array, io};
use worked::{checksum, kept, print_values};

// The most places that are lent.
pub const MOST: usize = 1100;

// Of more readings than this one number is printed.
const MOST_SHOWN: usize = 40;

const MODULUS: u64 = 2_147_483_647;

// What a place holds before the call: a number that tells the place, and that no reading may be.
fn before(place: usize) -> i32 {
    (2_000_000 + place % 2048) as i32
}

// A column before the call.
pub fn fresh_column() -> [i32; MOST] {
    array::from_fn(before)
}

// How many places stand before the first that kept its number.
fn count_written(column: &[i32]) -> usize
    ensures { result ≤ length column.now }
{
    for (i, place) in column.iter().enumerate() {
        if *place == before(i) {
            return i;
        }
    }
    column.len()
}

// The readings that are written, and how many places kept their numbers.
pub fn print_column(mut out: Stdout, column: &[i32]) -> io::Result<()> {
    let n = count_written(column);
    print!(out; ", readings {n}")?;
    if n > MOST_SHOWN {
        print!(out; " {}", checksum(&column[..n], 31, MODULUS))?;
    } else {
        print_values(&mut out, &column[..n])?;
    }
    print!(out; ", kept {}", kept(column, before))
}
