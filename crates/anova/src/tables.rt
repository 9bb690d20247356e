// The table call.
ghost use Rattle.std.specs.Prelude.{◌≡◌, cond, ◌-◌, ◌*◌, ◌<◌, ◌≤◌, eqb, get_or};
ghost use Rattle.contrasts.specs.Columns.{read, totals_of};
ghost use Rattle.contrasts.specs.Totals.{total};
ghost use Rattle.plan.specs.Outcome.{outcome};
ghost use Rattle.plan.specs.Plan.{factors_of, runs_of, run_sums_of};
ghost use Rattle.walks.specs.After.{sums_after};
ghost use Rattle.anova.specs.Inner.Effects.{effect_figures, rows_by_effects};
ghost use Rattle.anova.specs.Inner.Figures.{figures_from, line_in};
ghost use Rattle.anova.specs.Inner.Ready.{Joinable, Figurable};
ghost use Rattle.anova.specs.Laws.Admitted.{TableReady, InBlocks};
ghost use Rattle.anova.specs.Table.{table_refused, joined, table_figures, table_totals, table_rows, table_outcome, rows_of};

use super::amounts::{amount_of, leave_row, move_amount};
use super::refusals::check_table;
use super::rounds::check_number;
use super::squares::{about_means, sum_of_squares};
use super::types::{Checks, Figures, Source};
use passes::form_totals;
use plan::{Plan, Refusal, three_word, word_row};
use rows::Kind;
use walks::{Sums, walk};

// The denominator of runs made once: 2 to the power k at two levels. At three 6 to the power k, which is the number of runs times that of rows.
fn denominator(levels: u8, runs: usize, rows: usize) -> u32
    requires { (runs ≤ 1024) × (rows ≤ 1024) }
    ensures { result ≡ cond (eqb levels 2) runs (runs * rows) }
{
    if levels == 2 {
        runs as u32
    } else {
        (runs * rows) as u32
    }
}

// Totals, rows and the sums of the four kinds, from the run sums.
// Plan, readings, marks, column and rows go from call to call as the table call is handed them. A struct of them would be made for the call and
// opened at each step: no plainer.
fn form(p: Plan, readings: &[i32], marks: &[u8], column: &mut [i64], rows: &mut [u64]) -> Sums
    requires { TableReady p readings.now marks.now column.old rows.old }
    ensures value { result ≡ sums_after p (total (factors_of p) (read (run_sums_of p readings.now))) marks.now (runs_of p) }
    ensures column_after { column.new ≡ totals_of (factors_of p) (run_sums_of p readings.now) }
    ensures rows_after { rows.new ≡ rows_by_effects p (run_sums_of p readings.now) }
{
    form_totals(
        p.levels as usize,
        p.k as usize,
        p.repeats as usize,
        readings,
        column,
    );
    walk(p, column, marks, rows)
}

// The source of a kind.
fn source(sums: Sums, kind: Kind) -> Source
    ensures { result ≡ line_in sums kind }
{
    Source {
        degrees: sums.degrees[kind as usize],
        numerator: sums.numerators[kind as usize],
    }
}

// The squares of readings about their run's mean join a line.
#[tactic(auto, unfolding(crate::specs::Table::joined))]
fn join(line: Source, runs: usize, repeats: usize, within: u64) -> Source
    requires { Joinable line runs repeats within }
    ensures { result ≡ joined line (record { degrees = runs * (repeats - 1); numerator = within }) }
{
    Source {
        degrees: line.degrees + ((runs * (repeats - 1)) as u64),
        numerator: line.numerator + within,
    }
}

// The figures, from the denominator of runs made once, the squares of the readings, those about their run's mean, the sums of the walk and the
// check number.
fn figures(
    once: u64,
    runs: usize,
    repeats: usize,
    squares: u64,
    within: u64,
    sums: Sums,
    check: i64,
) -> Figures
    requires { Figurable once runs repeats squares within sums }
    ensures { result ≡ figures_from once runs repeats squares within sums check }
{
    let over = once * (repeats as u64);
    Figures {
        denominator: over,
        mean: source(sums, Kind::Mean),
        kept: source(sums, Kind::Kept),
        blocks: source(sums, Kind::Blocks),
        error: join(source(sums, Kind::Error), runs, repeats, once * within),
        total: Source {
            degrees: (runs * repeats) as u64,
            numerator: over * squares,
        },
        checks: Checks {
            totals: sums.totals,
            readings: check,
        },
    }
}

// The table by its effects: without a block word of three levels it is the table.
fn by_effects(
    p: Plan,
    readings: &[i32],
    marks: &[u8],
    column: &mut [i64],
    rows: &mut [u64],
) -> Figures
    requires { TableReady p readings.now marks.now column.old rows.old }
    ensures value { result ≡ effect_figures p readings.now marks.now }
    ensures column_after { column.new ≡ totals_of (factors_of p) (run_sums_of p readings.now) }
    ensures rows_after { rows.new ≡ rows_by_effects p (run_sums_of p readings.now) }
{
    let runs = column.len();
    let repeats = p.repeats as usize;
    let squares = sum_of_squares(readings);
    let within = about_means(readings, repeats, squares, column);
    let check = check_number(p.levels, p.k, repeats, readings, column);
    let once = denominator(p.levels, runs, rows.len()) as u64;
    let sums = form(p, readings, marks, column, rows);
    figures(once, runs, repeats, squares, within, sums, check)
}

// With one, the block amount leaves the row of the letters used and goes to the blocks line.
fn in_blocks(
    p: Plan,
    word: u16,
    readings: &[i32],
    marks: &[u8],
    column: &mut [i64],
    rows: &mut [u64],
) -> Figures
    requires { InBlocks p word readings.now marks.now column.old rows.old }
    ensures value { result ≡ table_figures p readings.now marks.now }
    ensures column_after { column.new ≡ totals_of (factors_of p) (run_sums_of p readings.now) }
    ensures rows_after { rows.new ≡ rows_of p (run_sums_of p readings.now) }
{
    let amount = amount_of(p.k, word, p.repeats as usize, readings, column);
    let figures = by_effects(p, readings, marks, column, rows);
    let row = word_row(p);
    leave_row(row, amount, rows);
    move_amount(figures, marks[row] == 1, amount)
}

// A table that is not refused.
fn make(p: Plan, readings: &[i32], marks: &[u8], column: &mut [i64], rows: &mut [u64]) -> Figures
    requires { TableReady p readings.now marks.now column.old rows.old }
    ensures value { result ≡ table_figures p readings.now marks.now }
    ensures column_after { column.new ≡ totals_of (factors_of p) (run_sums_of p readings.now) }
    ensures rows_after { rows.new ≡ rows_of p (run_sums_of p readings.now) }
{
    let word = three_word(p);
    if word == 0 {
        return by_effects(p, readings, marks, column, rows);
    }
    in_blocks(p, word, readings, marks, column, rows)
}

// The table of a plan's readings, with the rows that are marked pooled as error.
pub fn table(
    p: Plan,
    readings: &[i32],
    marks: &[u8],
    totals: &mut [i64],
    rows: &mut [u64],
) -> Result<Figures, Refusal>
    ensures result_value { table_outcome result ≡ outcome
        (table_refused p readings.now marks.now totals.old rows.old)
        (table_figures p readings.now marks.now) }
    ensures totals_after { totals.new ≡ table_totals p readings.now marks.now totals.old rows.old }
    ensures rows_after { rows.new ≡ table_rows p readings.now marks.now totals.old rows.old }
{
    check_table(p, readings, marks, totals, rows)?;
    Ok(make(p, readings, marks, totals, rows))
}
