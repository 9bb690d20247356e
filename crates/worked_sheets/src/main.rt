// Tries the two calls that take a sheet, on the records of its input. `reference/cases/sheet_cases.py` makes the input and the text that this
// program must write, and says how both are laid out.
#![tactic(auto)]

mod lent;
mod parts;

use input::read_input;
use lent::{MOST, fresh_column, print_column};
use parts::{print_marks, print_plan};
use plan::{Plan, Refusal};
use std::io;
use std::io::Stdout;
use worked::{MOST_RECORD, print_refusal, read_record, read_whole};

// The most bytes of the input.
const MOST_INPUT: usize = 262144;

// Whether the sheet was read, or the refusal.
fn print_answer(mut out: Stdout, answer: Result<Plan, Refusal>) -> io::Result<()> {
    match answer {
        Ok(_) => print!(out; " done"),
        Err(refusal) => print_refusal(&mut out, refusal),
    }
}

// Both calls on a sheet, with a column of so many places lent.
fn work(out: Stdout, sheet: &[u8], room: usize) -> io::Result<()> {
    let mut space = fresh_column();
    let column = &mut space[..room % (MOST + 1)];
    let answer = sheet::read(sheet, column);
    print_answer(out, answer)?;
    print_plan(out, sheet::plan_of(answer))?;
    print_column(out, column)?;
    print_marks(out, sheet::marks(sheet))?;
    println!(out)
}

// A record is how much room is lent, two bytes, and a sheet. The input is read whole first: where a read fails, nothing has been written.
fn main(rt: HostRuntime) -> io::Result<()> {
    let out = rt.stdout();
    let mut bytes = [0; MOST_INPUT];
    let n = read_input(&mut rt.stdin(), &mut bytes)?;
    let mut from = &bytes[..n];
    let mut space = [0; MOST_RECORD];
    for number in 1..=MOST_INPUT {
        let mut room = [0; 2];
        if !read_whole(&mut from, &mut room)? {
            break;
        }
        let Some(sheet) = read_record(&mut from, &mut space)? else {
            break;
        };
        print!(out; "{number}:")?;
        work(out, sheet, u16::from_be_bytes(room) as usize)?;
    }
    Ok(())
}
