// The program for planners: `blockwords K WORDS` prints every list of so many block words for k factors, and the effects that each confounds.
// Where the arguments are not two whole numbers it prints no text. That, and a text that cannot be written, it tells on standard error.
#![tactic(auto)]

mod list_lines;
mod lists;
mod numbers;

use lists::print_blockings;
use numbers::argument_of;
use std::env::{Env, FillError};

// As many bytes as the system hands over in one argument at the most.
const ARGUMENT: usize = 131072;

// Whether there is an argument i, the program's name being argument 0.
fn has_argument(rt: &impl Env, i: usize) -> bool {
    !matches!(rt.arg(i, &mut []), Err(FillError::NotPresent))
}

// Argument i; one that is missing has no bytes.
fn read_argument(rt: &impl Env, i: usize) -> Option<u8> {
    let mut buffer = [0u8; ARGUMENT];
    let n = rt.arg(i, &mut buffer).unwrap_or(0);
    argument_of(&buffer[..n])
}

fn tell_wanted(rt: &impl Eprint) {
    let _ = rt.eprintln(
        "blockwords: wants the number of factors, 2 to 5, and that of block words, 1 to 3",
    );
}

fn main(rt: HostRuntime) {
    if !has_argument(&rt, 2) || has_argument(&rt, 3) {
        return tell_wanted(&rt);
    }
    let Some(k) = read_argument(&rt, 1) else {
        return tell_wanted(&rt);
    };
    let Some(words) = read_argument(&rt, 2) else {
        return tell_wanted(&rt);
    };
    if print_blockings(&mut rt.stdout(), k, words).is_err() {
        let _ = rt.eprintln("blockwords: the text cannot be written");
    }
}
