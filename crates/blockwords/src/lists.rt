// The text on standard output: how many lists there are and a line for each, or the line of the refusal. Each line is written by itself. Each
// function stops where something was not written, and answers why. Where all was, the writer holds the text after what it held.
ghost use Rattle.std.specs.Prelude.{OnOk, ◌≤◌, length};
ghost use Rattle.std.specs.Io.KnownBytes.{Appends};
ghost use Rattle.lines.specs.Lines.{named_line};
ghost use Rattle.blockings.specs.Blockings.{blockings_of};
ghost use Rattle.blockwords.specs.Listed.{list_line};
ghost use Rattle.blockwords.specs.Printed.{list_lines, blockings_text};
ghost use Rattle.blockwords.specs.Inner.Ready.{Blocked, ListsIn};

use super::list_lines::{LINE, list_line};
use blockings::blockings;
use lines::named_line;
use std::io;
use std::io::Write;
use text::Text;

// Places for the words of all lists: the most are 1,120 lists of three.
const PLACES: usize = 3360;

// A line of a name and a number. There is room for a name of up to 1,000 bytes.
fn print_number<W: Write>(out: &mut W, name: &[u8], n: u64) -> io::Result<()>
    ensures { length name.now ≤ 1000 → OnOk result (Appends (W.contents out.old) (W.contents out.new) (named_line name.now n)) }
{
    let mut line = [0u8; LINE];
    let mut text = Text::new(&mut line);
    named_line(&mut text, name, n);
    out.write_all(text.bytes())
}

// The line of a list.
// (As `print_number`, of another line; with the line as a closure the contract would name what the closure writes, no plainer.)
fn print_list<W: Write>(out: &mut W, k: u8, list: &[u16]) -> io::Result<()>
    requires { Blocked k list.now }
    ensures { OnOk result (Appends (W.contents out.old) (W.contents out.new) (list_line k list.now)) }
{
    let mut text = [0u8; LINE];
    let end = list_line(&mut text, k, list);
    out.write_all(&text[..end])
}

// The lines of all lists. They stand in the column one after the other, each of so many words.
fn print_lists<W: Write>(
    out: &mut W,
    k: u8,
    words: usize,
    lists: usize,
    column: &[u16],
) -> io::Result<()>
    requires { ListsIn k words lists column.now }
    ensures { OnOk result (Appends (W.contents out.old) (W.contents out.new) (list_lines k (blockings_of k words))) }
{
    for i in 0..lists {
        let at = i * words;
        print_list(out, k, &column[at..at + words])?;
    }
    Ok(())
}

// What the blocking call answers, and the lists that it writes.
pub fn print_blockings<W: Write>(out: &mut W, k: u8, words: u8) -> io::Result<()>
    ensures { OnOk result (Appends (W.contents out.old) (W.contents out.new) (blockings_text k words)) }
{
    let mut column = [0u16; PLACES];
    match blockings(k, words, &mut column) {
        Ok(n) => {
            print_number(out, b"lists", n as u64)?;
            print_lists(out, k, words as usize, n, &column)
        }
        Err(refusal) => print_number(out, b"refused", refusal.number() as u64),
    }
}
