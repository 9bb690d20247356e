// The lines of all rows.
ghost use Rattle.std.specs.Prelude.{◌≡◌, length};
ghost use Rattle.rows.specs.Kinds.{code_of};
ghost use Rattle.text.specs.Text.{Writes};
ghost use Rattle.printing.specs.Inner.Ready.{RowsReady};
ghost use Rattle.printing.specs.Printed.{row_lines};
ghost use Rattle.printing.specs.Inner.Written.{degrees_by, degrees_left};

use lines::row_line;
use plan::{Plan, word_row};
use rows::{Kind, kinds};
use text::Text;
use words::count_letters;

// 1 at two levels, and at three 2 for each letter multiplied.
fn degrees(levels: u8, row: u16) -> u64
    ensures { result ≡ degrees_by levels row }
{
    if levels == 2 {
        return 1;
    }
    1u64 << count_letters(row)
}

// What a row has left of them: that of the letters used by a three-level block word gives up 2. `used` is its number, and 0 without such a word.
fn degrees_left(levels: u8, used: usize, row: u16) -> u64
    requires { levels ≡ 2 → used ≡ 0 }
    ensures { result ≡ degrees_left levels used row }
{
    let all = degrees(levels, row);
    if used == 0 {
        return all;
    }
    if (row as usize) == used { all - 2 } else { all }
}

// The number of a kind.
fn number(kind: Kind) -> u8
    ensures { result ≡ code_of kind }
{
    kind as u8
}

pub fn row_lines(text: &mut Text<'_>, p: Plan, marks: &[u8], rows: &[u64])
    requires { RowsReady p rows.now }
    ensures { Writes text.old (row_lines p marks.now rows.now (length rows.now)) text.new }
{
    let levels = p.levels;
    let used = word_row(p);
    let kinds = kinds(p, marks);
    for (i, numerator) in rows.iter().enumerate() {
        let row = i as u16;
        let left = degrees_left(levels, used, row);
        row_line(text, row, left, *numerator, number(kinds[i]));
    }
}
