// Plans of Table 12-3: the confounded effects, and the runs of each block, the blocks in the order of their first runs.
ghost use Rattle.std.specs.Prelude.{◌≤◌, length};

use super::text::{print_effect, print_treatment};
use blockings::blocked_plan;
use plan::{Plan, confounded, runs};
use runs::run;
use std::io;
use std::io::Stdout;

// The block of a run, where the plan has that run.
fn block_of(p: Plan, number: usize) -> Option<u8> {
    run(p, number).ok().map(|run| run.block)
}

// Whether no run before has the block of this one.
fn is_first(p: Plan, number: usize) -> bool {
    let block = block_of(p, number);
    (0..number).all(|i| block_of(p, i) != block)
}

// The runs of a block, of which the first is given.
fn print_block(out: Stdout, p: Plan, first: usize) -> io::Result<()> {
    let block = block_of(p, first);
    print_treatment(out, p, first)?;
    let n = runs(p);
    for i in first..n {
        if i != first && block_of(p, i) == block {
            print!(out; " ")?;
            print_treatment(out, p, i)?;
        }
    }
    println!(out)
}

fn print_blocks(out: Stdout, p: Plan) -> io::Result<()> {
    let n = runs(p);
    for i in 0..n {
        if is_first(p, i) {
            print_block(out, p, i)?;
        }
    }
    Ok(())
}

// All confounded effects: none has more letters than the ten that a plan may have.
fn print_confounded(out: Stdout, p: Plan) -> io::Result<()> {
    print!(out; "confounded")?;
    for word in 0..1024 {
        if confounded(p, word) {
            print!(out; " ")?;
            print_effect(out, word)?;
        }
    }
    println!(out)
}

// A plan by its factors, its number among those of as many factors, as the table has it, and its block words.
pub fn print_blocked(out: Stdout, k: u8, number: &str, words: &[u16]) -> io::Result<()>
    requires { length words.now ≤ 4 }
{
    println!(out; "table 12-3, {k} factors ({number})")?;
    let p = blocked_plan(k, words);
    print_confounded(out, p)?;
    print_blocks(out, p)
}
