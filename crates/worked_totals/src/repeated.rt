// What the calls answer to plans whose runs are made as often as they may be, more often, or as often as is not allowed.
use plan::{Plan, number_of};
use std::io;
use std::io::Stdout;
use yates::{pass, step, totals};

// Step, passes and totals are given columns of two places and sixteen readings. The second pass is of a factor that the plan does not have.
pub fn try_repeats(out: Stdout, levels: u8, k: u8, repeats: u8) -> io::Result<()> {
    let p = Plan::whole(levels, k, repeats);
    let readings = [0; 16];
    let mut column = [0; 2];
    let mut next = [0; 2];
    let stepped = number_of(step(p, &column, &mut next));
    let passed = number_of(pass(p, 0, &mut column));
    let beyond = number_of(pass(p, k as usize, &mut column));
    let answer = number_of(totals(p, &readings, &mut column));
    print!(out; "levels {levels}, factors {k}, repeats {repeats}: ")?;
    println!(out; "step {stepped}, pass {passed}, pass of no factor {beyond}, totals {answer}")
}
