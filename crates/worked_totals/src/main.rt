// Works published examples by the step, totals and pass calls, and tries these at their limits and with repeats that are allowed or not.
// `reference/published/examples.py` has the figures that the sources print, and makes of the readings the text that this program must write.
#![tactic(auto)]

mod limits;
mod readings;
mod repeated;
mod text;
mod works;

use limits::try_limits;
use readings::examples;
use repeated::try_repeats;
use std::io;
use std::io::Stdout;
use works::work;

fn work_examples(out: Stdout) -> io::Result<()> {
    for (i, example) in examples().iter().enumerate() {
        work(out, i + 1, example)?;
    }
    Ok(())
}

// Each place of a factor of two and of three levels.
fn try_all_limits(out: Stdout) -> io::Result<()> {
    for levels in 2..4u8 {
        for place in 0..levels as usize {
            try_limits(out, levels, place)?;
        }
    }
    Ok(())
}

fn try_repeats_of_one_factor(out: Stdout) -> io::Result<()> {
    for repeats in [0, 1, 2, 3, 4, 5, 8, 9, 16, 128, 255] {
        try_repeats(out, 2, 1, repeats)?;
    }
    Ok(())
}

// Levels, factors and repeats: of as many readings as there may be, and of more.
const MANY: [(u8, u8, u8); 14] = [
    (2, 10, 1),
    (2, 10, 2),
    (2, 9, 2),
    (2, 9, 4),
    (2, 8, 4),
    (2, 8, 8),
    (2, 7, 8),
    (3, 6, 1),
    (3, 6, 2),
    (3, 5, 4),
    (3, 5, 8),
    (3, 4, 8),
    (4, 1, 3),
    (2, 11, 3),
];

fn try_most_readings(out: Stdout) -> io::Result<()> {
    for (levels, k, repeats) in MANY {
        try_repeats(out, levels, k, repeats)?;
    }
    Ok(())
}

fn main(rt: HostRuntime) -> io::Result<()> {
    let out = rt.stdout();
    work_examples(out)?;
    try_all_limits(out)?;
    try_repeats_of_one_factor(out)?;
    try_most_readings(out)
}
