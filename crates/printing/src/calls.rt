// The text of a sheet.
ghost use Rattle.std.specs.Prelude.{suc, ◌≡◌, ◌++◌, length, take, drop};
ghost use Rattle.plan.specs.Plan.{all_readings};
ghost use Rattle.text.specs.Text.{Writes};
ghost use Rattle.sheet.specs.Sheet.{marks_refused};
ghost use Rattle.printing.specs.Inner.Ready.{SheetReady};
ghost use Rattle.printing.specs.Inner.Written.{made_text};
ghost use Rattle.printing.specs.Input.{Decides};
ghost use Rattle.printing.specs.Printed.{printed, sheet_table, longest_sheet, text_of};

use super::tables::answer_text;
use lines::named_line;
use plan::Plan;
use rows::row_count;
use sheet::{marks, read};
use sizes::{reading_count, runs};
use text::Text;

// The most runs, readings or rows of a plan.
const MOST: usize = 1024;

// The most bytes of a sheet.
const LONGEST: usize = 5187;

// One byte more, so that an input that is too long is seen to be so.
pub const INPUT: usize = LONGEST + 1;

// Room for every text; none is longer.
pub const TEXT: usize = 69632;

// The table of an accepted sheet. The readings are the first of the column.
fn lend(text: &mut Text<'_>, p: Plan, column: &[i32], marks: &[u8])
    requires { SheetReady p column.now marks.now }
    ensures { Writes text.old (made_text p (take (all_readings p) column.now) marks.now) text.new }
{
    let mut totals = [0i64; MOST];
    let mut rows = [0u64; MOST];
    let n = runs(p);
    let m = reading_count(p);
    let r = row_count(p);
    answer_text(
        text,
        p,
        &column[..m],
        marks,
        &mut totals[..n],
        &mut rows[..r],
    );
}

// The text of what the reader answers of a sheet, whatever its length.
fn read_text(text: &mut Text<'_>, sheet: &[u8])
    ensures { Writes text.old (printed (marks_refused sheet.now) (sheet_table sheet.now)) text.new }
{
    let mut column = [0i32; MOST];
    match read(sheet, &mut column) {
        Ok(p) => lend(text, p, &column, marks(sheet)),
        Err(refusal) => named_line(text, b"refused", refusal.number() as u64),
    }
}

// The text of a sheet. One that is too long is not read.
fn sheet_text(text: &mut Text<'_>, sheet: &[u8])
    ensures { Writes text.old (text_of sheet.now) text.new }
{
    if LONGEST < sheet.len() {
        return named_line(text, b"refused", 1);
    }
    read_text(text, sheet)
}

// The text of a sheet, and how many bytes it has. The buffer's bytes after it are as they were.
pub fn print_sheet(sheet: &[u8], text: &mut [u8; TEXT]) -> usize
    ensures value { result ≡ length (text_of sheet.now) }
    ensures text_after { text.new ≡ text_of sheet.now ++ drop result text.old }
{
    let mut whole = Text::new(text);
    sheet_text(&mut whole, sheet);
    whole.len()
}

// The text of an input that was read until the buffer was full or the input ended: the text of the buffer's first `count` bytes. However the
// input goes on, it is the same. A count beyond the buffer is that of a full one.
// (screentab has the like of another text. May not change: edits of both programs change what a program does with the count.)
pub fn print_input(input: &[u8; INPUT], count: usize, text: &mut [u8; TEXT]) -> usize
    ensures value { result ≡ length (text_of (take count input.now)) }
    ensures text_after { text.new ≡ text_of (take count input.now) ++ drop result text.old }
    ensures decides { Decides input.now count }
    ensures input_len { length input.now ≡ suc longest_sheet }
{
    let bytes: &[u8] = input;
    if bytes.len() <= count {
        return print_sheet(bytes, text);
    }
    print_sheet(&bytes[..count], text)
}
