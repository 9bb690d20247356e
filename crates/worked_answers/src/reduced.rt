// The alias call.
use aliases::alias;
use numerals::{byte, pair};
use plan::Plan;
use std::io;
use std::io::Stdout;
use worked::print_refusal;

// After the call the rest is the effect, two bytes. A word is printed as its number, and whether the sign turns.
pub fn try_alias(mut out: Stdout, p: Plan, rest: &[u8]) -> io::Result<()> {
    let effect = pair(byte(rest, 1), byte(rest, 2));
    match alias(p, effect) {
        Ok(base) if base.turned => print!(out; " reduced {}, turned", base.word)?,
        Ok(base) => print!(out; " reduced {}, unturned", base.word)?,
        Err(refusal) => print_refusal(&mut out, refusal)?,
    }
    println!(out)
}
