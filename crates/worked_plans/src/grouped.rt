// Plans of Yates's Table 43, three factors at three levels: the block of each run, in run order. Sets 1, 2, 3 are blocks 0, 1, 2.
use plan::Plan;
use runs::run;
use std::io;
use std::io::Stdout;

// A run's block; the letters that are high would stand before it, if there were any.
fn print_set(out: Stdout, p: Plan, number: usize) -> io::Result<()> {
    match run(p, number) {
        Ok(run) if run.high == 0 => print!(out; " {}", run.block),
        Ok(run) => print!(out; " letters{}", run.block),
        Err(_) => print!(out; " refused"),
    }
}

// A group, by its word: a number to the base 3, A's digit the lowest.
pub fn print_group(out: Stdout, name: &str, word: u16) -> io::Result<()> {
    print!(out; "table 43, {name}:")?;
    let p = Plan {
        blocks: 1,
        blockwords: [word, 0, 0, 0],
        ..Plan::whole(3, 3, 1)
    };
    for i in 0..27 {
        print_set(out, p, i)?;
    }
    println!(out)
}
