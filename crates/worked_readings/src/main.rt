// Tries the recovery call on the records of its input. `reference/cases/recovery_answers.py` makes the input and the text that this program must
// write, and says how both are laid out.
#![tactic(auto)]

mod given;
mod lent;

use contents::plan_in;
use fields::body;
use given::{MOST, totals_in};
use lent::{fresh_column, is_kept, print_readings};
use numerals::{byte, pair};
use plan::Plan;
use recovery::recover;
use std::io;
use std::io::Stdout;
use worked::{MOST_RECORD, print_refusal, read_record};

// The call: the readings, or the number of its refusal, and whether a place of the column has changed.
fn work(mut out: Stdout, p: Plan, totals: &[i64], readings: &mut [i32]) -> io::Result<()> {
    match recover(p, totals, readings) {
        Ok(()) => print_readings(out, readings)?,
        Err(refusal) => print_refusal(&mut out, refusal)?,
    }
    if is_kept(readings) {
        println!(out; ", unchanged")
    } else {
        println!(out; ", changed")
    }
}

// Field 9 is how many readings and how many totals are lent, two bytes each, and the first totals; the others are 0.
fn lend(out: Stdout, record: &[u8]) -> io::Result<()> {
    let rest = body(record, 9, 0);
    let places = pair(byte(rest, 0), byte(rest, 1)) as usize;
    let count = pair(byte(rest, 2), byte(rest, 3)) as usize;
    if places > MOST || count > MOST {
        return Ok(());
    }
    let totals = totals_in(rest);
    let mut readings = fresh_column();
    work(
        out,
        plan_in(record),
        &totals[..count],
        &mut readings[..places],
    )
}

// Reads the records one by one, and writes a line for each. The loop has to end and the input need not, so that there is a last number, which no
// input comes to.
fn main(rt: HostRuntime) -> io::Result<()> {
    let out = rt.stdout();
    let mut from = rt.stdin();
    let mut space = [0; MOST_RECORD];
    for number in 1..u64::MAX {
        let Some(record) = read_record(&mut from, &mut space)? else {
            break;
        };
        print!(out; "{number}:")?;
        lend(out, record)?;
    }
    Ok(())
}
