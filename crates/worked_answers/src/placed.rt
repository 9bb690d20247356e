// The run call.
use numerals::{byte, pair};
use plan::Plan;
use runs::run;
use std::io;
use std::io::Stdout;
use worked::print_refusal;

// After the call the rest is the run's number, two bytes. The letters that are high are printed as the number of their set.
pub fn try_run(mut out: Stdout, p: Plan, rest: &[u8]) -> io::Result<()> {
    let number = pair(byte(rest, 1), byte(rest, 2)) as usize;
    match run(p, number) {
        Ok(run) => print!(out; " high {}, block {}", run.high, run.block)?,
        Err(refusal) => print_refusal(&mut out, refusal)?,
    }
    println!(out)
}
