// Tries the table call on plans, readings and marks that it refuses and on large readings that it accepts, the estimate, the alias, the run and
// the blocking call, the rows, divisors and weights of effects, and the screening call, by the records of its input. `reference/cases/answers.py`
// makes the input and the text that this program must write, and says how both are laid out; `reference/cases/screening_answers.py` makes the part
// about the screening call.
#![tactic(auto)]

mod estimated;
mod listed;
mod placed;
mod reduced;
mod tabled;
mod weighed;

use contents::plan_in;
use estimated::try_estimate;
use fields::body;
use input::read_input;
use listed::try_blocking;
use numerals::byte;
use placed::try_run;
use reduced::try_alias;
use std::io;
use std::io::Stdout;
use tabled::try_table;
use weighed::try_effects;
use worked::read_whole;

// The most bytes of the input.
const MOST_INPUT: usize = 65536;

// The most bytes of a record.
const MOST_RECORD: usize = 255;

// Field 9 is the call, a byte, and what else it takes: 1 is the table, 2 the estimate, 3 the alias, 4 the effects, 5 the run, 6 the blocking, 7 the
// screening call, which is tried as the table is.
fn work(out: Stdout, record: &[u8]) -> io::Result<()> {
    let p = plan_in(record);
    let rest = body(record, 9, 0);
    match byte(rest, 0) {
        1 | 7 => try_table(out, p, record, rest),
        2 => try_estimate(out, p, rest),
        3 => try_alias(out, p, rest),
        4 => try_effects(out, p),
        5 => try_run(out, p, rest),
        _ => try_blocking(out, rest),
    }
}

// A record is its length, a byte, and so many bytes. The input is read whole first: where a read fails, nothing has been written.
fn main(rt: HostRuntime) -> io::Result<()> {
    let out = rt.stdout();
    let mut bytes = [0; MOST_INPUT];
    let n = read_input(&mut rt.stdin(), &mut bytes)?;
    let mut from = &bytes[..n];
    let mut space = [0; MOST_RECORD];
    for number in 1..=MOST_INPUT {
        let mut head = [0; 1];
        if !read_whole(&mut from, &mut head)? {
            break;
        }
        let record = &mut space[..head[0] as usize];
        if !read_whole(&mut from, record)? {
            break;
        }
        print!(out; "{number}:")?;
        work(out, record)?;
    }
    Ok(())
}
