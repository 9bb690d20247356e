// The tables of plans in bytes and of sheets.
ghost use Rattle.std.specs.Prelude.{◌≡◌, length};
ghost use Rattle.fields.specs.Fields.{fields_of};
ghost use Rattle.contents.specs.Contents.{plan_in, readings_in, marks_in};
ghost use Rattle.anova.specs.Table.{table_refused};
ghost use Rattle.screening.specs.Screening.{screen_refused};
ghost use Rattle.plan.specs.Refusals.{number_of};
ghost use Rattle.heads.specs.Heads.{head_plan, called};
ghost use Rattle.figures.specs.Numbers.{TableLeft};
ghost use Rattle.tables.specs.Sheets.{sheet_table_refused};
ghost use Rattle.tables.specs.Inner.Slices.{other_slices};

use contents::{plan_in, put_readings};
use fields::{Tag, body};
use figures::{screened, tabulate};
use heads::read_head;
use plan::{Plan, Refusal};
use rows::row_count;
use sheet::check_sheet;
use sizes::runs;

// The most readings of a plan.
const MOST: usize = 1024;

// The table of a plan in bytes.
pub fn table(
    head: &[u8],
    readings: &[i32],
    marks: &[u8],
    totals: &mut [i64],
    rows: &mut [u64],
    figures: &mut [u64; 11],
    checks: &mut [i64; 2],
) -> Result<(), Refusal>
    ensures { TableLeft
        (called head.now (λ p. table_refused p readings.now marks.now totals.old rows.old))
        (head_plan head.now) readings.now marks.now
        totals.old rows.old figures.old checks.old
        (number_of result) totals.new rows.new figures.new checks.new }
{
    let p = read_head(head)?;
    tabulate(p, readings, marks, totals, rows, figures, checks)
}

// The same by the screening profile. One function for both would take the call as a closure over the slices, with a contract on what it leaves
// there: no plainer than these two lines.
pub fn screen(
    head: &[u8],
    readings: &[i32],
    marks: &[u8],
    totals: &mut [i64],
    rows: &mut [u64],
    figures: &mut [u64; 11],
    checks: &mut [i64; 2],
) -> Result<(), Refusal>
    ensures { TableLeft
        (called head.now (λ p. screen_refused p readings.now marks.now totals.old rows.old))
        (head_plan head.now) readings.now marks.now
        totals.old rows.old figures.old checks.old
        (number_of result) totals.new rows.new figures.new checks.new }
{
    let p = read_head(head)?;
    screened(p, readings, marks, totals, rows, figures, checks)
}

// Whether totals and rows have other lengths than the plan's.
#[tactic(auto, unfolding(crate::specs::Inner::Slices::other_slices))]
fn other_slices(p: Plan, totals: usize, own: usize) -> bool
    ensures { result ≡ other_slices p totals own }
{
    totals != runs(p) || own != row_count(p)
}

// The table of a sheet.
pub fn sheet_table(
    sheet: &[u8],
    totals: &mut [i64],
    rows: &mut [u64],
    figures: &mut [u64; 11],
    checks: &mut [i64; 2],
) -> Result<(), Refusal>
    ensures { TableLeft
        (sheet_table_refused sheet.now (length totals.old) (length rows.old))
        (plan_in (fields_of sheet.now)) (readings_in (fields_of sheet.now)) (marks_in (fields_of sheet.now))
        totals.old rows.old figures.old checks.old
        (number_of result) totals.new rows.new figures.new checks.new }
{
    let p = plan_in(sheet);
    let other = other_slices(p, totals.len(), rows.len());
    check_sheet(sheet, p, other)?;
    let readings = body(sheet, Tag::Readings as u8, 0);
    let marks = body(sheet, Tag::Marks as u8, 0);
    let count = readings.len() / 4;
    let mut column = [0i32; MOST];
    put_readings(readings, &mut column[..count]);
    tabulate(p, &column[..count], marks, totals, rows, figures, checks)
}
