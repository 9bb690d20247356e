// Each call once more, with the whole of its promise as specs/Promised.antt has it: so that what is claimed of these promises is claimed of the
// calls. Nothing calls these functions; that they are proved is what they are for.
#![tactic(auto)]

ghost use Rattle.std.specs.Prelude.{◌≡◌};
ghost use Rattle.plan.specs.Check.{check_outcome};
ghost use Rattle.runs.specs.Run.{run_outcome};
ghost use Rattle.aliases.specs.Alias.{alias_outcome};
ghost use Rattle.blockings.specs.Blockings.{blockings_outcome};
ghost use Rattle.columns.specs.Refusals.{answer_outcome};
ghost use Rattle.anova.specs.Table.{table_outcome};
ghost use Rattle.sheet.specs.Sheet.{sheet_outcome, plan_of};
ghost use Rattle.estimates.specs.Estimate.{estimate_outcome};
ghost use Rattle.promises.specs.Promised.{promised_check, promised_run, promised_alias, promised_blockings, promised_pass, promised_step, promised_totals};
ghost use Rattle.promises.specs.Promised.{promised_recover, promised_table, promised_screen, promised_estimate};
ghost use Rattle.promises.specs.Promised.{promised_read, promised_marks, promised_print};

use aliases::Alias;
use anova::{Estimate, Figures};
use plan::{Plan, Refusal};
use printing::TEXT;
use runs::Run;

fn check(p: Plan) -> Result<(), Refusal>
    ensures { check_outcome result ≡ promised_check p }
{
    plan::check(p)
}

fn run(p: Plan, number: usize) -> Result<Run, Refusal>
    ensures { run_outcome result ≡ promised_run p number }
{
    runs::run(p, number)
}

fn alias(p: Plan, effect: u16) -> Result<Alias, Refusal>
    ensures { alias_outcome result ≡ promised_alias p effect }
{
    aliases::alias(p, effect)
}

fn blockings(k: u8, words: u8, column: &mut [u16]) -> Result<usize, Refusal>
    ensures result_value { blockings_outcome result ≡ (promised_blockings k words column.old).answer }
    ensures column_after { column.new ≡ (promised_blockings k words column.old).column }
{
    blockings::blockings(k, words, column)
}

fn pass(p: Plan, factor: usize, column: &mut [i64]) -> Result<(), Refusal>
    ensures result_value { answer_outcome result ≡ (promised_pass p factor column.old).answer }
    ensures column_after { column.new ≡ (promised_pass p factor column.old).column }
{
    yates::pass(p, factor, column)
}

fn step(p: Plan, from: &[i64], to: &mut [i64]) -> Result<(), Refusal>
    ensures result_value { answer_outcome result ≡ (promised_step p from.now to.old).answer }
    ensures to_after { to.new ≡ (promised_step p from.now to.old).column }
{
    yates::step(p, from, to)
}

fn totals(p: Plan, readings: &[i32], column: &mut [i64]) -> Result<(), Refusal>
    ensures result_value { answer_outcome result ≡ (promised_totals p readings.now column.old).answer }
    ensures column_after { column.new ≡ (promised_totals p readings.now column.old).column }
{
    yates::totals(p, readings, column)
}

fn recover(p: Plan, totals: &[i64], column: &mut [i32]) -> Result<(), Refusal>
    ensures result_value { answer_outcome result ≡ (promised_recover p totals.now column.old).answer }
    ensures column_after { column.new ≡ (promised_recover p totals.now column.old).column }
{
    recovery::recover(p, totals, column)
}

fn table(
    p: Plan,
    readings: &[i32],
    marks: &[u8],
    column: &mut [i64],
    rows: &mut [u64],
) -> Result<Figures, Refusal>
    ensures result_value { table_outcome result ≡ (promised_table p readings.now marks.now column.old rows.old).answer }
    ensures column_after { column.new ≡ (promised_table p readings.now marks.now column.old rows.old).totals }
    ensures rows_after { rows.new ≡ (promised_table p readings.now marks.now column.old rows.old).rows }
{
    anova::table(p, readings, marks, column, rows)
}

fn screen(
    p: Plan,
    readings: &[i32],
    marks: &[u8],
    column: &mut [i64],
    rows: &mut [u64],
) -> Result<Figures, Refusal>
    ensures result_value { table_outcome result ≡ (promised_screen p readings.now marks.now column.old rows.old).answer }
    ensures column_after { column.new ≡ (promised_screen p readings.now marks.now column.old rows.old).totals }
    ensures rows_after { rows.new ≡ (promised_screen p readings.now marks.now column.old rows.old).rows }
{
    screening::screen(p, readings, marks, column, rows)
}

fn estimate(p: Plan, effect: u16, total: i64) -> Result<Estimate, Refusal>
    ensures { estimate_outcome result ≡ promised_estimate p effect total }
{
    anova::estimate(p, effect, total)
}

fn read(sheet: &[u8], column: &mut [i32]) -> Result<Plan, Refusal>
    ensures answer_value { sheet_outcome result ≡ (promised_read sheet.now column.old).answer }
    ensures plan_value { plan_of result ≡ (promised_read sheet.now column.old).plan }
    ensures column_after { column.new ≡ (promised_read sheet.now column.old).column }
{
    sheet::read(sheet, column)
}

fn marks(sheet: &[u8]) -> &[u8]
    ensures { result.now ≡ promised_marks sheet.now }
{
    sheet::marks(sheet)
}

fn text(sheet: &[u8], text: &mut [u8; TEXT]) -> usize
    ensures value { result ≡ (promised_print sheet.now text.old).count }
    ensures text_after { text.new ≡ (promised_print sheet.now text.old).buffer }
{
    printing::print_sheet(sheet, text)
}
