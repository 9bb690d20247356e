// Steps, passes and totals of one factor over columns with a value at their limits, or one beyond.
ghost use Rattle.std.specs.Prelude.{◌≤◌};

use super::text::print_column;
use plan::{Plan, number_of};
use std::io::Stdout;
use std::{array, io};
use yates::{pass, step, totals};

const VALUE_LIMIT: i64 = 1_024_000_000;

const TWO_READING_LIMIT: i32 = 1_000_000;

const THREE_READING_LIMIT: i32 = 100_000;

// Both ways, at the limit of values and one beyond.
const VALUES: [i64; 4] = [VALUE_LIMIT, VALUE_LIMIT + 1, -VALUE_LIMIT, -VALUE_LIMIT - 1];

// Both ways, at the limits of readings and one beyond.
const READINGS: [i32; 8] = [
    TWO_READING_LIMIT,
    TWO_READING_LIMIT + 1,
    -TWO_READING_LIMIT,
    -TWO_READING_LIMIT - 1,
    THREE_READING_LIMIT,
    THREE_READING_LIMIT + 1,
    -THREE_READING_LIMIT,
    -THREE_READING_LIMIT - 1,
];

// The most levels of a factor.
const MOST: usize = 3;

// A column with the value at one place and 0 elsewhere.
fn column_with<T: Copy + Default>(place: usize, value: T) -> [T; MOST] {
    array::from_fn(|i| if i == place { value } else { T::default() })
}

// The step and then the pass of a column with the value at one place: what each answers, and the column that it leaves.
fn try_value(out: Stdout, levels: u8, place: usize, value: i64) -> io::Result<()>
    requires { levels ≤ 3 }
{
    let p = Plan::whole(levels, 1, 1);
    let runs = levels as usize;
    let mut column = column_with(place, value);
    let mut next = [0; MOST];
    println!(out; "levels {levels}, place {place}, value {value}")?;
    let stepped = number_of(step(p, &column[..runs], &mut next[..runs]));
    print!(out; "step answer {stepped}")?;
    print_column(out, &next[..runs])?;
    let passed = number_of(pass(p, 0, &mut column[..runs]));
    print!(out; "pass answer {passed}")?;
    print_column(out, &column[..runs])
}

// The totals of readings with one at a place.
fn try_reading(out: Stdout, levels: u8, place: usize, reading: i32) -> io::Result<()>
    requires { levels ≤ 3 }
{
    let p = Plan::whole(levels, 1, 1);
    let runs = levels as usize;
    let readings = column_with(place, reading);
    let mut column = [0; MOST];
    println!(out; "levels {levels}, place {place}, value {reading}")?;
    let answer = number_of(totals(p, &readings[..runs], &mut column[..runs]));
    print!(out; "totals answer {answer}")?;
    print_column(out, &column[..runs])
}

pub fn try_limits(out: Stdout, levels: u8, place: usize) -> io::Result<()>
    requires { levels ≤ 3 }
{
    for value in VALUES {
        try_value(out, levels, place, value)?;
    }
    for reading in READINGS {
        try_reading(out, levels, place, reading)?;
    }
    Ok(())
}
