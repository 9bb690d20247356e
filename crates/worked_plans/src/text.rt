// Runs and effects as letters.
use plan::Plan;
use runs::run;
use std::io;
use std::io::Stdout;

// The letters of a set, by their names.
fn print_letters(out: Stdout, set: u16, names: &str) -> io::Result<()> {
    for (i, name) in names.chars().enumerate() {
        if words::has_letter(set, i) {
            print!(out; "{name}")?;
        }
    }
    Ok(())
}

// A run's treatment combination: the letters that are high, and (1) where none is.
pub fn print_treatment(out: Stdout, p: Plan, number: usize) -> io::Result<()> {
    match run(p, number) {
        Ok(run) if run.high == 0 => print!(out; "(1)"),
        Ok(run) => print_letters(out, run.high, "abcdefghijklmnop"),
        Err(_) => print!(out; "refused"),
    }
}

pub fn print_effect(out: Stdout, set: u16) -> io::Result<()> {
    print_letters(out, set, "ABCDEFGHIJKLMNOP")
}
