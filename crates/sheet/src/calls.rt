// The reader and the marks call.
ghost use Rattle.std.specs.Prelude.{◌≡◌, length};
ghost use Rattle.plan.specs.Outcome.{outcome};
ghost use Rattle.sheet.specs.Sheet.{sheet_outcome, plan_of, read_refused, read_plan, read_column, marks_of};

use super::refusals::check_sheet;
use contents::{plan_in, put_readings};
use fields::{Tag, body};
use plan::{Plan, Refusal};
use sizes::reading_count;

// The plan of a sheet, and its readings in the first places of the column.
pub fn read(sheet: &[u8], column: &mut [i32]) -> Result<Plan, Refusal>
    ensures answer_value { sheet_outcome result ≡ outcome (read_refused sheet.now (length column.old)) tt }
    ensures plan_value { plan_of result ≡ read_plan sheet.now (length column.old) }
    ensures column_after { column.new ≡ read_column sheet.now column.old }
{
    let p = plan_in(sheet);
    check_sheet(sheet, p, column.len() < reading_count(p))?;
    let readings = body(sheet, Tag::Readings as u8, 0);
    let count = readings.len() / 4;
    put_readings(readings, &mut column[..count]);
    Ok(p)
}

// The plan of the reader's answer. That of a refused sheet is all zeros, which every call refuses.
pub fn plan_of(answer: Result<Plan, Refusal>) -> Plan
    ensures { result ≡ plan_of answer }
{
    match answer {
        Ok(p) => p,
        Err(_) => Plan::whole(0, 0, 0),
    }
}

// The part of the sheet that holds the marks; an empty part where the sheet is refused.
pub fn marks(sheet: &[u8]) -> &[u8]
    ensures { result.now ≡ marks_of sheet.now }
{
    match check_sheet(sheet, plan_in(sheet), false) {
        Ok(()) => body(sheet, Tag::Marks as u8, 0),
        Err(_) => &[],
    }
}
