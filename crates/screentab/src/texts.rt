// The text of a sheet, as the screening profile has it. The table itself is printed by the printing call.
ghost use Rattle.std.specs.Prelude.{suc, ◌≡◌, ◌++◌, length, take, drop};
ghost use Rattle.plan.specs.Plan.{all_readings};
ghost use Rattle.plan.specs.Refusals.{number_of};
ghost use Rattle.printing.specs.Input.{DecidesFor};
ghost use Rattle.printing.specs.Printed.{longest_sheet};
ghost use Rattle.screentab.specs.Inner.Lent.{ColumnReady, accepted_refused};
ghost use Rattle.screentab.specs.Screened.{lent_refused, screened_text};

use lines::named_line;
use plan::{Plan, Refusal};
use printing::{INPUT, TEXT, print_sheet};
use rows::row_count;
use screening::screen;
use sheet::{marks, read};
use sizes::{reading_count, runs};
use text::Text;

// The most runs, readings or rows of a plan.
const MOST: usize = 1024;

// The screening call's refusal of an accepted plan, if it makes no table. The readings are the first of the column.
fn lend(p: Plan, column: &[i32], marks: &[u8]) -> Result<(), Refusal>
    requires { ColumnReady p column.now }
    ensures { number_of result ≡ lent_refused p (take (all_readings p) column.now) marks.now }
{
    let mut totals = [0i64; MOST];
    let mut rows = [0u64; MOST];
    let n = runs(p);
    let m = reading_count(p);
    let r = row_count(p);
    screen(p, &column[..m], marks, &mut totals[..n], &mut rows[..r])?;
    Ok(())
}

// The screening call's refusal of a sheet. Of one that the reader refuses there is none: that line is the printing call's.
fn check_screened(sheet: &[u8]) -> Result<(), Refusal>
    ensures { number_of result ≡ accepted_refused sheet.now }
{
    let mut column = [0i32; MOST];
    match read(sheet, &mut column) {
        Ok(p) => lend(p, &column, marks(sheet)),
        Err(_) => Ok(()),
    }
}

// The text of a sheet, and how many bytes it has. The buffer's bytes after it are as they were.
fn screened_text(sheet: &[u8], text: &mut [u8; TEXT]) -> usize
    ensures value { result ≡ length (screened_text sheet.now) }
    ensures text_after { text.new ≡ screened_text sheet.now ++ drop result text.old }
{
    match check_screened(sheet) {
        Ok(()) => print_sheet(sheet, text),
        Err(refusal) => {
            let mut line = Text::new(text);
            named_line(&mut line, b"refused", refusal.number() as u64);
            line.len()
        }
    }
}

// The text of an input that was read until the buffer was full or the input ended: the text of the buffer's first `count` bytes. However the
// input goes on, it is the same. A count beyond the buffer is that of a full one.
pub fn screened_input(input: &[u8; INPUT], count: usize, text: &mut [u8; TEXT]) -> usize
    ensures value { result ≡ length (screened_text (take count input.now)) }
    ensures text_after { text.new ≡ screened_text (take count input.now) ++ drop result text.old }
    ensures decides_for { DecidesFor screened_text input.now count }
    ensures input_len { length input.now ≡ suc longest_sheet }
{
    let bytes: &[u8] = input;
    if bytes.len() <= count {
        return screened_text(bytes, text);
    }
    screened_text(&bytes[..count], text)
}
