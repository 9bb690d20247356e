// Plans of Table 12-4: the treatment combination of each run, and the effects of one or two letters that reduce to the run's word.
ghost use Rattle.std.specs.Prelude.{◌≤◌, length};

use super::text::{print_effect, print_treatment};
use aliases::alias;
use plan::Plan;
use std::io;
use std::io::Stdout;
use words::count_letters;

// Prints the effect where it reduces to the word, with a minus sign where the alias call turns it, and says whether it does. An effect with a
// letter that the plan does not have is refused, and so does not reduce.
fn print_alias(out: Stdout, p: Plan, effect: u16, word: u16) -> io::Result<bool> {
    match alias(p, effect) {
        Ok(base) if base.word == word => {
            print!(out; "{}", if base.turned { " -" } else { " +" })?;
            print_effect(out, effect)?;
            Ok(true)
        }
        _ => Ok(false),
    }
}

// The effects of one or two letters that reduce to the word; T is the mean, and * stands where there is none.
fn print_aliases(out: Stdout, p: Plan, word: u16) -> io::Result<()> {
    let mut none = word != 0;
    for effect in 1..1024u16 {
        if count_letters(effect) < 3 && print_alias(out, p, effect, word)? {
            none = false;
        }
    }
    if word == 0 {
        print!(out; " T")?;
    }
    if none {
        print!(out; " *")?;
    }
    println!(out)
}

// One row for each of the runs.
fn print_rows(out: Stdout, p: Plan) -> io::Result<()> {
    for number in 0..1u16.wrapping_shl(p.k as u32) {
        print_treatment(out, p, number as usize)?;
        print_aliases(out, p, number)?;
    }
    Ok(())
}

// The added factors, each with its word; their letters follow those of the base factors.
fn print_added(out: Stdout, p: Plan) -> io::Result<()> {
    for (j, word) in p.added_words().iter().enumerate() {
        if j != 0 {
            print!(out; ", ")?;
        }
        print_effect(out, 1u16.wrapping_shl(p.k as u32 + j as u32))?;
        print!(out; " = ")?;
        print_effect(out, *word)?;
    }
    println!(out)
}

// The plan of two levels with these words of added factors, without signs, and each run made once.
fn added_plan(k: u8, list: &[u16]) -> Plan
    requires { length list.now ≤ 6 }
{
    let mut words = [0; 6];
    words[..list.len()].copy_from_slice(list);
    Plan {
        added: list.len() as u8,
        words,
        ..Plan::whole(2, k, 1)
    }
}

// A plan by its number in the table, its base factors, and the words of the added factors.
pub fn print_fractional(out: Stdout, number: u8, k: u8, words: &[u16]) -> io::Result<()>
    requires { length words.now ≤ 6 }
{
    println!(out; "table 12-4, plan {number}")?;
    let p = added_plan(k, words);
    print_added(out, p)?;
    print_rows(out, p)
}
