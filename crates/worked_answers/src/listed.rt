// The blocking call: the words that it writes, and the places that keep their numbers.
use blockings::blockings;
use numerals::{byte, pair};
use std::io::Stdout;
use std::{array, io};
use worked::{checksum, kept, print_refusal, print_values};

// As many places as the most words take, and three more.
const MOST: usize = 3363;

// Of a column of up to so many places each is printed.
const FEW: usize = 100;

// What a place holds before the call: no word, and at each place another number.
fn before(place: usize) -> u16 {
    (65535 - place % 65536) as u16
}

fn print_places(mut out: Stdout, column: &[u16]) -> io::Result<()> {
    let kept = kept(column, before);
    let checksum = checksum(column, 17, 65521);
    print!(out; ", kept {kept}, checksum {checksum}")?;
    if column.len() <= FEW {
        print!(out; ", column")?;
        print_values(&mut out, column)?;
    }
    println!(out)
}

// The call and the column after it.
fn lend(mut out: Stdout, k: u8, words: u8, column: &mut [u16]) -> io::Result<()> {
    match blockings(k, words, column) {
        Ok(lists) => print!(out; " written {lists}")?,
        Err(refusal) => print_refusal(&mut out, refusal)?,
    }
    print_places(out, column)
}

// After the call the rest is k and the number of words, a byte each, and how many places are lent, two bytes.
pub fn try_blocking(out: Stdout, rest: &[u8]) -> io::Result<()> {
    let places = pair(byte(rest, 3), byte(rest, 4)) as usize;
    if places > MOST {
        return Ok(());
    }
    let mut column: [u16; MOST] = array::from_fn(before);
    lend(out, byte(rest, 1), byte(rest, 2), &mut column[..places])
}
