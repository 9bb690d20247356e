// What is refused of a sheet.
ghost use Rattle.std.specs.Prelude.{◌≡◌, ◌||◌};
ghost use Rattle.plan.specs.Check.{plan_refused};
ghost use Rattle.plan.specs.Refusals.{number_of};
ghost use Rattle.columns.specs.Refusals.{wrong_readings};
ghost use Rattle.rows.specs.Kinds.{wrong_rows};
ghost use Rattle.fields.specs.Fields.{fields_of};
ghost use Rattle.sheet.specs.Sheet.{refused_with};

use contents::{any_beyond, needless_repeats};
use fields::{Tag, bad_fields, body};
use plan::{Plan, Refusal, check};
use rows::{bad_marks, row_count};
use sizes::reading_count;

// Refusal 11, of an accepted plan; `narrow` says that the column has too few places.
// (A type for accepted plans would be made for three private functions alone: no plainer.)
fn wrong_lengths(p: Plan, narrow: bool, readings: usize, marks: usize) -> bool
    requires { plan_refused p ≡ 0 }
    ensures { result ≡ (narrow || (wrong_readings p readings || wrong_rows p marks)) }
{
    if narrow {
        return true;
    }
    if readings != reading_count(p) {
        return true;
    }
    marks != row_count(p)
}

// The first refusal that applies to a sheet with such a plan.
pub fn check_sheet(sheet: &[u8], p: Plan, narrow: bool) -> Result<(), Refusal>
    ensures { number_of result ≡ refused_with (fields_of sheet.now) p narrow }
{
    if bad_fields(sheet) {
        return Err(Refusal::Sheet);
    }
    check(p)?;
    let readings = body(sheet, Tag::Readings as u8, 0);
    let marks = body(sheet, Tag::Marks as u8, 0);
    let needless = needless_repeats(sheet);
    let wrong = wrong_lengths(p, narrow, readings.len() / 4, marks.len());
    if needless {
        return Err(Refusal::Repeats);
    }
    if wrong {
        return Err(Refusal::Length);
    }
    if any_beyond(p, readings) {
        return Err(Refusal::Beyond);
    }
    if bad_marks(p, marks) {
        return Err(Refusal::Marks);
    }
    Ok(())
}
