// Printing of the plan and the marks.
use plan::Plan;
use std::io;
use std::io::Stdout;

// The added factors, each with its sign. A place that does not count is printed only if it is not 0.
fn print_added(out: Stdout, p: Plan) -> io::Result<()> {
    let count = p.added as usize;
    for (i, (word, sign)) in p.words.iter().zip(&p.signs).enumerate() {
        if i < count || *word != 0 || *sign != 0 {
            print!(out; " {word}/{sign}")?;
        }
    }
    Ok(())
}

// The block words, likewise.
fn print_blocks(out: Stdout, p: Plan) -> io::Result<()> {
    let count = p.blocks as usize;
    for (i, word) in p.blockwords.iter().enumerate() {
        if i < count || *word != 0 {
            print!(out; " {word}")?;
        }
    }
    Ok(())
}

pub fn print_plan(out: Stdout, p: Plan) -> io::Result<()> {
    print!(out; ", plan {} {} {}", p.levels, p.k, p.repeats)?;
    print!(out; ", added {}", p.added)?;
    print_added(out, p)?;
    print!(out; ", blocks {}", p.blocks)?;
    print_blocks(out, p)
}

// The marks with no space between them.
pub fn print_marks(out: Stdout, marks: &[u8]) -> io::Result<()> {
    print!(out; ", marks {}", marks.len())?;
    if !marks.is_empty() {
        print!(out; " ")?;
    }
    for mark in marks {
        print!(out; "{mark}")?;
    }
    Ok(())
}
