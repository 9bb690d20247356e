// The table call and the screening call: where one is refused, nothing that it is lent may change.
ghost use Rattle.std.specs.Prelude.{◌≤◌};

use anova::{Figures, table};
use contents::put_readings;
use fields::{Tag, body};
use numerals::byte;
use plan::{Plan, Refusal};
use screening::screen;
use std::io;
use std::io::Stdout;
use worked::{print_refusal, print_values};

// The screening call among the calls of field 9.
const SCREENING: u8 = 7;

// The most totals and rows, and the most readings.
const MOST: usize = 32;

// What totals and rows hold before the call.
const TOTAL_BEFORE: i64 = -123456789;

const ROW_BEFORE: u64 = 987654321;

// The rows and the error of a table, or the number of its refusal.
fn print_answer(mut out: Stdout, answer: Result<Figures, Refusal>, rows: &[u64]) -> io::Result<()> {
    match answer {
        Ok(figures) => {
            print!(out; " made, rows")?;
            print_values(&mut out, rows)?;
            let error = figures.error;
            print!(out; ", error {} {}", error.degrees, error.numerator)
        }
        Err(refusal) => print_refusal(&mut out, refusal),
    }
}

fn answer_of(
    call: u8,
    p: Plan,
    readings: &[i32],
    marks: &[u8],
    totals: &mut [i64],
    rows: &mut [u64],
) -> Result<Figures, Refusal> {
    if call == SCREENING {
        screen(p, readings, marks, totals, rows)
    } else {
        table(p, readings, marks, totals, rows)
    }
}

// Lends the readings, and so many totals and rows.
fn try_lent(
    out: Stdout,
    call: u8,
    p: Plan,
    readings: &[i32],
    marks: &[u8],
    n: usize,
    r: usize,
) -> io::Result<()>
    requires { (n ≤ 32) × (r ≤ 32) }
{
    let mut totals = [TOTAL_BEFORE; MOST];
    let mut rows = [ROW_BEFORE; MOST];
    let answer = answer_of(call, p, readings, marks, &mut totals[..n], &mut rows[..r]);
    print_answer(out, answer, &rows[..r])?;
    if totals == [TOTAL_BEFORE; MOST] && rows == [ROW_BEFORE; MOST] {
        println!(out; ", unchanged")
    } else {
        println!(out; ", changed")
    }
}

// The rest is the call, and how many totals and rows are lent, a byte each; readings and marks are those of the record.
pub fn try_table(out: Stdout, p: Plan, record: &[u8], rest: &[u8]) -> io::Result<()> {
    let body_of_readings = body(record, Tag::Readings as u8, 0);
    let count = body_of_readings.len() / 4;
    if count > MOST {
        return Ok(());
    }
    let mut column = [0; MOST];
    let readings = &mut column[..count];
    put_readings(body_of_readings, readings);
    let marks = body(record, Tag::Marks as u8, 0);
    let n = (byte(rest, 1) % 33) as usize;
    let r = (byte(rest, 2) % 33) as usize;
    try_lent(out, byte(rest, 0), p, readings, marks, n, r)
}
