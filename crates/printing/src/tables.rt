// The text of a table.
ghost use Rattle.text.specs.Text.{Writes};
ghost use Rattle.printing.specs.Inner.Ready.{RowsReady};
ghost use Rattle.printing.specs.Printed.{table_text};
ghost use Rattle.printing.specs.Inner.Written.{answer_text};

use super::row_texts::row_lines;
use anova::{Figures, table};
use lines::{check_line, named_line, source_line};
use plan::Plan;
use text::Text;

// The lines of a table, in their order.
fn table_text(text: &mut Text<'_>, p: Plan, marks: &[u8], f: Figures, rows: &[u64])
    requires { RowsReady p rows.now }
    ensures { Writes text.old (table_text p marks.now f rows.now) text.new }
{
    let blocks = f.blocks;
    let error = f.error;
    let total = f.total;
    let checks = f.checks;
    named_line(text, b"over", f.denominator);
    row_lines(text, p, marks, rows);
    source_line(text, b"blocks", blocks.degrees, blocks.numerator);
    source_line(text, b"error", error.degrees, error.numerator);
    source_line(text, b"total", total.degrees, total.numerator);
    check_line(text, checks.totals, checks.readings);
}

// The text of what the table call answers. Totals and rows are lent to it.
pub fn answer_text(
    text: &mut Text<'_>,
    p: Plan,
    readings: &[i32],
    marks: &[u8],
    totals: &mut [i64],
    rows: &mut [u64],
)
    ensures { Writes text.old (answer_text p readings.now marks.now totals.old rows.old) text.new }
{
    match table(p, readings, marks, totals, rows) {
        Ok(f) => table_text(text, p, marks, f, rows),
        Err(refusal) => named_line(text, b"refused", refusal.number() as u64),
    }
}
