// The estimate call.
use anova::{Estimate, estimate};
use numerals::{byte, pair};
use plan::Plan;
use std::io;
use std::io::Stdout;
use worked::{number_in, print_refusal};

// A double as the number that its 64 bits are.
fn print_double(out: Stdout, name: &str, value: f64) -> io::Result<()> {
    if value.is_nan() {
        return println!(out; " {name}");
    }
    println!(out; " {name} {}", value.to_bits())
}

// After the call the rest is the effect, two bytes, and its total, eight.
pub fn try_estimate(mut out: Stdout, p: Plan, rest: &[u8]) -> io::Result<()> {
    let effect = pair(byte(rest, 1), byte(rest, 2));
    let total = number_in(rest.get(3..).unwrap_or(&[]));
    match estimate(p, effect, total) {
        Ok(Estimate::Mean(value)) => print_double(out, "mean", value),
        Ok(Estimate::Difference(value)) => print_double(out, "difference", value),
        Ok(Estimate::Lost) => println!(out; " lost"),
        Err(refusal) => {
            print_refusal(&mut out, refusal)?;
            println!(out)
        }
    }
}
