// The column of readings that is lent: what it holds before the call, and what it holds after it.
ghost use Rattle.std.specs.Prelude.{◌≤◌, length};

use super::given::MOST;
use std::io::Stdout;
use std::{array, io};
use worked::{checksum, kept, print_values};

// Of a column of more places than this the ends are printed, and one number.
const FEW: usize = 100;

const ENDS: usize = 4;

const MODULUS: u64 = 2_147_483_647;

// What a place holds before the call: a number that tells the place, and that no sum of a run may be.
fn before(place: usize) -> i32 {
    (20_000_000 + place % 2048) as i32
}

// A column before the call.
pub fn fresh_column() -> [i32; MOST] {
    array::from_fn(before)
}

// Whether all places hold what they held before the call.
pub fn is_kept(column: &[i32]) -> bool {
    kept(column, before) == column.len()
}

// The ends of a column and its checksum, which tells the order of all values.
fn print_ends(mut out: Stdout, column: &[i32]) -> io::Result<()> {
    let n = column.len();
    print!(out; " {n}")?;
    if n < ENDS {
        return Ok(());
    }
    print!(out; ", first")?;
    print_values(&mut out, &column[..ENDS])?;
    print!(out; ", last")?;
    print_values(&mut out, &column[n - ENDS..])?;
    print!(out; ", checksum {}", checksum(column, 31, MODULUS))
}

pub fn print_readings(mut out: Stdout, column: &[i32]) -> io::Result<()> {
    print!(out; " readings")?;
    if column.len() > FEW {
        print_ends(out, column)
    } else {
        print_values(&mut out, column)
    }
}
