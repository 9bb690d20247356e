// The effects of a plan: the row of each, its divisor and its weight.
use effects::{divisors, rows, weights};
use plan::{Plan, runs};
use std::io;
use std::io::Stdout;

// The call takes the plan alone. The n effects are printed, and the first place beyond them where there is one.
pub fn try_effects(out: Stdout, p: Plan) -> io::Result<()> {
    let n = runs(p);
    println!(out; " effects {n}")?;
    let rows = rows(p);
    let divisors = divisors(p);
    let weights = weights(p);
    let figures = rows.iter().zip(&divisors).zip(&weights);
    for (e, ((row, divisor), weight)) in figures.enumerate() {
        if e <= n {
            println!(out; " {row} {divisor} {weight}")?;
        }
    }
    Ok(())
}
