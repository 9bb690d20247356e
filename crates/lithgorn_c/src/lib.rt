// The library as programs in other languages link it: each call of the crate `lithgorn` under its own name, as include/lithgorn.h declares it to C, with the
// same arguments and the same contract, word for word. tools/library makes the archive from it.
//
// In C a slice is a pointer and a length, and a place or an array a pointer alone. What is lent to one call must not overlap: the contracts below
// take places that lie apart, as Rattle lends them; that a program in C lends such is assumed (docs/TRUST.md).
#![tactic(auto)]

ghost use Rattle.std.specs.Prelude.{◌≡◌, ◌++◌, ◌-◌, length, drop};
ghost use Rattle.blockings.specs.Blockings.{blockings_refused, blockings_column};
ghost use Rattle.yates.specs.Calls.{pass_refused, pass_column, totals_refused, totals_column};
ghost use Rattle.steps.specs.Step.{step_refused, step_column};
ghost use Rattle.recovery.specs.Calls.{recover_refused, recover_column};
ghost use Rattle.anova.specs.Table.{table_refused};
ghost use Rattle.screening.specs.Screening.{screen_refused};
ghost use Rattle.fields.specs.Fields.{fields_of};
ghost use Rattle.contents.specs.Contents.{plan_in, readings_in, marks_in};
ghost use Rattle.sheet.specs.Sheet.{read_refused, read_column, marks_of};
ghost use Rattle.printing.specs.Printed.{text_of};
ghost use Rattle.heads.specs.Heads.{head_plan, head_refused, called, leaves};
ghost use Rattle.facts.specs.Facts.{run_on_head, run_high, run_block, alias_on_head, alias_word, alias_turned, estimate_on_head, estimate_kind, estimate_double, blockings_count};
ghost use Rattle.handed.specs.Sheets.{read_span};
ghost use Rattle.figures.specs.Numbers.{call_refused, TableLeft};
ghost use Rattle.tables.specs.Sheets.{sheet_table_refused};
ghost use Rattle.plan.specs.Plan.{whole_plan};

use printing::TEXT;

// The plan check.
#[unsafe(no_mangle)]
pub extern "C" fn lithgorn_check(head: &[u8]) -> u8
    ensures { result ≡ head_refused head.now }
{
    lithgorn::lithgorn_check(head)
}

// The letters that are high in a run, and its block.
#[unsafe(no_mangle)]
pub extern "C" fn lithgorn_run(head: &[u8], number: usize, high: &mut u16, block: &mut u8) -> u8
    ensures value { result ≡ run_on_head head.now number }
    ensures high_after { high.new ≡ run_high head.now number high.old }
    ensures block_after { block.new ≡ run_block head.now number block.old }
{
    lithgorn::lithgorn_run(head, number, high, block)
}

// The base word that an effect reduces to, and 1 where its sign turns, else 0.
#[unsafe(no_mangle)]
pub extern "C" fn lithgorn_alias(head: &[u8], effect: u16, word: &mut u16, turned: &mut u8) -> u8
    ensures value { result ≡ alias_on_head head.now effect }
    ensures word_after { word.new ≡ alias_word head.now effect word.old }
    ensures turned_after { turned.new ≡ alias_turned head.now effect turned.old }
{
    lithgorn::lithgorn_alias(head, effect, word, turned)
}

// The mean or a difference by the total of an effect, or that the effect is lost; the double keeps its value then.
#[unsafe(no_mangle)]
pub extern "C" fn lithgorn_estimate(
    head: &[u8],
    effect: u16,
    total: i64,
    kind: &mut u8,
    value: &mut f64,
) -> u8
    ensures value { result ≡ estimate_on_head head.now effect total }
    ensures kind_after { kind.new ≡ estimate_kind head.now effect total kind.old }
    ensures value_after { value.new ≡ estimate_double head.now effect total value.old }
{
    lithgorn::lithgorn_estimate(head, effect, total, kind, value)
}

// The lists of block words in the column, and how many there are.
#[unsafe(no_mangle)]
pub extern "C" fn lithgorn_blockings(k: u8, words: u8, column: &mut [u16], lists: &mut usize) -> u8
    ensures value { result ≡ blockings_refused k words (length column.old) }
    ensures column_after { column.new ≡ blockings_column k words column.old }
    ensures lists_after { lists.new ≡ blockings_count k words (length column.old) lists.old }
{
    lithgorn::lithgorn_blockings(k, words, column, lists)
}

// The pass of one factor over a column, in place.
#[unsafe(no_mangle)]
pub extern "C" fn lithgorn_pass(head: &[u8], factor: usize, column: &mut [i64]) -> u8
    ensures value { result ≡ called head.now (λ p. pass_refused p factor column.old) }
    ensures column_after { column.new ≡ leaves head.now (λ p. pass_column p factor column.old) column.old }
{
    lithgorn::lithgorn_pass(head, factor, column)
}

// The report's step, from one column to another.
#[unsafe(no_mangle)]
pub extern "C" fn lithgorn_step(head: &[u8], from: &[i64], to: &mut [i64]) -> u8
    ensures value { result ≡ called head.now (λ p. step_refused p from.now to.old) }
    ensures to_after { to.new ≡ leaves head.now (λ p. step_column p from.now to.old) to.old }
{
    lithgorn::lithgorn_step(head, from, to)
}

// The totals of all effects.
#[unsafe(no_mangle)]
pub extern "C" fn lithgorn_totals(head: &[u8], readings: &[i32], totals: &mut [i64]) -> u8
    ensures value { result ≡ called head.now (λ p. totals_refused p readings.now totals.old) }
    ensures totals_after { totals.new ≡ leaves head.now (λ p. totals_column p readings.now totals.old) totals.old }
{
    lithgorn::lithgorn_totals(head, readings, totals)
}

// The readings that have these totals; of runs that are made more than once, the run sums.
#[unsafe(no_mangle)]
pub extern "C" fn lithgorn_recover(head: &[u8], totals: &[i64], readings: &mut [i32]) -> u8
    ensures value { result ≡ called head.now (λ p. recover_refused p totals.now readings.old) }
    ensures readings_after { readings.new ≡ leaves head.now (λ p. recover_column p totals.now readings.old) readings.old }
{
    lithgorn::lithgorn_recover(head, totals, readings)
}

// The table of a plan in bytes.
#[unsafe(no_mangle)]
pub extern "C" fn lithgorn_table(
    head: &[u8],
    readings: &[i32],
    marks: &[u8],
    totals: &mut [i64],
    rows: &mut [u64],
    figures: &mut [u64; 11],
    checks: &mut [i64; 2],
) -> u8
    ensures { TableLeft
        (called head.now (λ p. table_refused p readings.now marks.now totals.old rows.old))
        (head_plan head.now) readings.now marks.now
        totals.old rows.old figures.old checks.old
        result totals.new rows.new figures.new checks.new }
{
    lithgorn::lithgorn_table(head, readings, marks, totals, rows, figures, checks)
}

// The same by the screening profile.
#[unsafe(no_mangle)]
pub extern "C" fn lithgorn_screen(
    head: &[u8],
    readings: &[i32],
    marks: &[u8],
    totals: &mut [i64],
    rows: &mut [u64],
    figures: &mut [u64; 11],
    checks: &mut [i64; 2],
) -> u8
    ensures { TableLeft
        (called head.now (λ p. screen_refused p readings.now marks.now totals.old rows.old))
        (head_plan head.now) readings.now marks.now
        totals.old rows.old figures.old checks.old
        result totals.new rows.new figures.new checks.new }
{
    lithgorn::lithgorn_screen(head, readings, marks, totals, rows, figures, checks)
}

// The readings of a sheet in the first places of the column, and how many of its first bytes are its plan.
#[unsafe(no_mangle)]
pub extern "C" fn lithgorn_read(sheet: &[u8], readings: &mut [i32], span: &mut usize) -> u8
    ensures value { result ≡ read_refused sheet.now (length readings.old) }
    ensures readings_after { readings.new ≡ read_column sheet.now readings.old }
    ensures span_after { span.new ≡ read_span sheet.now (length readings.old) span.old }
{
    lithgorn::lithgorn_read(sheet, readings, span)
}

// How many of the last bytes of a sheet are its marks; none where the sheet is refused.
#[unsafe(no_mangle)]
pub extern "C" fn lithgorn_marks(sheet: &[u8]) -> usize
    ensures value { result ≡ length (marks_of sheet.now) }
    ensures sheet_value { drop (length sheet.now - result) sheet.now ≡ marks_of sheet.now }
{
    lithgorn::lithgorn_marks(sheet)
}

// The table of a sheet.
#[unsafe(no_mangle)]
pub extern "C" fn lithgorn_sheet_table(
    sheet: &[u8],
    totals: &mut [i64],
    rows: &mut [u64],
    figures: &mut [u64; 11],
    checks: &mut [i64; 2],
) -> u8
    ensures { TableLeft
        (sheet_table_refused sheet.now (length totals.old) (length rows.old))
        (plan_in (fields_of sheet.now)) (readings_in (fields_of sheet.now)) (marks_in (fields_of sheet.now))
        totals.old rows.old figures.old checks.old
        result totals.new rows.new figures.new checks.new }
{
    lithgorn::lithgorn_sheet_table(sheet, totals, rows, figures, checks)
}

// The text of a sheet, and how many bytes it has. The buffer's bytes after it are as they were.
#[unsafe(no_mangle)]
pub extern "C" fn lithgorn_text(sheet: &[u8], text: &mut [u8; TEXT]) -> usize
    ensures value { result ≡ length (text_of sheet.now) }
    ensures text_after { text.new ≡ text_of sheet.now ++ drop result text.old }
{
    lithgorn::lithgorn_text(sheet, text)
}

// The pass of one factor over a column, in place.
#[unsafe(no_mangle)]
pub extern "C" fn yates_pass(levels: u8, k: u8, factor: usize, column: &mut [i64]) -> u8
    ensures value { result ≡ pass_refused (whole_plan levels k 1) factor column.old }
    ensures column_after { column.new ≡ pass_column (whole_plan levels k 1) factor column.old }
{
    lithgorn::yates_pass(levels, k, factor, column)
}

// The totals of all effects.
#[unsafe(no_mangle)]
pub extern "C" fn yates_totals(
    levels: u8,
    k: u8,
    repeats: u8,
    readings: &[i32],
    totals: &mut [i64],
) -> u8
    ensures value { result ≡ totals_refused (whole_plan levels k repeats) readings.now totals.old }
    ensures totals_after { totals.new ≡ totals_column (whole_plan levels k repeats) readings.now totals.old }
{
    lithgorn::yates_totals(levels, k, repeats, readings, totals)
}

// The readings that have these totals; of runs that are made more than once, the run sums.
#[unsafe(no_mangle)]
pub extern "C" fn yates_recover(
    levels: u8,
    k: u8,
    repeats: u8,
    totals: &[i64],
    readings: &mut [i32],
) -> u8
    ensures value { result ≡ recover_refused (whole_plan levels k repeats) totals.now readings.old }
    ensures readings_after { readings.new ≡ recover_column (whole_plan levels k repeats) totals.now readings.old }
{
    lithgorn::yates_recover(levels, k, repeats, totals, readings)
}

// The analysis of variance: totals, row numerators, and the figures as 11 numbers and the checks as 2, in the order that `figure_numbers` and
// `check_numbers` give.
#[unsafe(no_mangle)]
pub extern "C" fn anova_table(
    levels: u8,
    k: u8,
    repeats: u8,
    readings: &[i32],
    marks: &[u8],
    totals: &mut [i64],
    rows: &mut [u64],
    figures: &mut [u64],
    checks: &mut [i64],
) -> u8
    ensures { TableLeft
        (call_refused (whole_plan levels k repeats) readings.now marks.now
        totals.old rows.old figures.old checks.old)
        (whole_plan levels k repeats) readings.now marks.now
        totals.old rows.old figures.old checks.old
        result totals.new rows.new figures.new checks.new }
{
    lithgorn::anova_table(
        levels, k, repeats, readings, marks, totals, rows, figures, checks,
    )
}
