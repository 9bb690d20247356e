// The lines.
ghost use Rattle.rows.specs.Kinds.{kind_in};
ghost use Rattle.text.specs.Text.{Writes};
ghost use Rattle.lines.specs.Lines.{named_line, source_line, check_line, row_line};

use super::fields::{end_line, kind_of, label, next_kind, next_number, next_pair, next_value};
use text::Text;

// The lines `over` and `refused`.
pub fn named_line(text: &mut Text<'_>, name: &[u8], n: u64)
    ensures { Writes text.old (named_line name.now n) text.new }
{
    text.copy(name);
    next_number(text, n);
    end_line(text);
}

// The lines `blocks`, `error` and `total`.
pub fn source_line(text: &mut Text<'_>, name: &[u8], degrees: u64, numerator: u64)
    ensures { Writes text.old (source_line name.now degrees numerator) text.new }
{
    text.copy(name);
    next_pair(text, degrees, numerator);
    end_line(text);
}

// The line `check`: the sum of the totals, then the number from the readings.
pub fn check_line(text: &mut Text<'_>, totals: i64, readings: i64)
    ensures { Writes text.old (check_line totals readings) text.new }
{
    text.copy(b"check");
    next_value(text, totals);
    next_value(text, readings);
    end_line(text);
}

// The line of a row. Its kind comes by its number: the call has always taken any byte (`kind_in`), and a `Kind` would take fewer.
pub fn row_line(text: &mut Text<'_>, row: u16, degrees: u64, numerator: u64, kind: u8)
    ensures { Writes text.old (row_line row degrees numerator (kind_in kind)) text.new }
{
    label(text, row);
    next_pair(text, degrees, numerator);
    next_kind(text, kind_of(kind));
    end_line(text);
}
