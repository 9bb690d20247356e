// One example: the column after each step, the totals, and the passes in rising and falling orders that start with each factor. Steps and
// passes start from the run sums, which are the readings where every run is made once.
ghost use Rattle.std.specs.Prelude.{◌≡◌, length};

use super::readings::Example;
use super::text::print_column;
use plan::{Plan, number_of};
use std::io;
use std::io::Stdout;
use yates::{pass, step, totals};

// The most runs of an example.
const MOST: usize = 81;

// The run sums as the values of a column.
fn fill(sums: &[i32], column: &mut [i64]) {
    for (value, sum) in column.iter_mut().zip(sums) {
        *value = *sum as i64;
    }
}

// The column after each of the k steps.
fn print_steps(out: Stdout, p: Plan, column: &mut [i64], next: &mut [i64]) -> io::Result<()>
    requires { length next.old ≡ length column.old }
{
    for j in 0..p.k {
        print!(out; "step {}", j as u16 + 1)?;
        let _ = step(p, column, next);
        print_column(out, next)?;
        column.copy_from_slice(next);
    }
    Ok(())
}

// The column holds the run sums before the call, so that a call that is refused shows in what is printed.
fn print_totals(out: Stdout, p: Plan, example: &Example, column: &mut [i64]) -> io::Result<()> {
    fill(example.sums, column);
    let _ = totals(p, example.readings, column);
    print!(out; "totals")?;
    print_column(out, column)
}

// The number of the next call, of the numbers 0 to k: one more, and 0 after k; or one less, and k after 0.
fn after(factor: u8, k: u8, rising: bool) -> u8 {
    if rising {
        if factor < k { factor + 1 } else { 0 }
    } else {
        factor.checked_sub(1).unwrap_or(k)
    }
}

// The numbers of k + 1 calls: those of the k factors, and k, which is refused.
fn print_calls(out: Stdout, k: u8, first: u8, rising: bool) -> io::Result<()> {
    print!(out; "calls")?;
    let mut factor = first;
    for _ in 0..=k {
        print!(out; " {factor}")?;
        factor = after(factor, k, rising);
    }
    Ok(())
}

// What the same calls answer, and the column that they leave.
fn print_answers(
    out: Stdout,
    p: Plan,
    first: u8,
    rising: bool,
    column: &mut [i64],
) -> io::Result<()> {
    print!(out; ", answers")?;
    let mut factor = first;
    for _ in 0..=p.k {
        print!(out; " {}", number_of(pass(p, factor as usize, column)))?;
        factor = after(factor, p.k, rising);
    }
    print_column(out, column)
}

// A line for each number that the calls may start with. Each line starts from the run sums.
fn print_rotations(
    out: Stdout,
    p: Plan,
    sums: &[i32],
    rising: bool,
    column: &mut [i64],
) -> io::Result<()> {
    for first in 0..=p.k {
        fill(sums, column);
        print_calls(out, p.k, first, rising)?;
        print_answers(out, p, first, rising, column)?;
    }
    Ok(())
}

fn print_work(
    out: Stdout,
    p: Plan,
    example: &Example,
    column: &mut [i64],
    next: &mut [i64],
) -> io::Result<()>
    requires { length next.old ≡ length column.old }
{
    fill(example.sums, column);
    print_steps(out, p, column, next)?;
    print_totals(out, p, example, column)?;
    print_rotations(out, p, example.sums, true, column)?;
    print_rotations(out, p, example.sums, false, column)
}

// An example with its number.
pub fn work(out: Stdout, number: usize, example: &Example) -> io::Result<()> {
    let Example {
        levels,
        k,
        repeats,
        sums,
        readings: _,
    } = *example;
    if sums.len() > MOST {
        return Ok(());
    }
    println!(out; "example {number}: {levels} levels, {k} factors, {repeats} repeats")?;
    let p = Plan::whole(levels, k, repeats);
    let mut column = [0; MOST];
    let mut next = [0; MOST];
    let runs = sums.len();
    print_work(out, p, example, &mut column[..runs], &mut next[..runs])
}
