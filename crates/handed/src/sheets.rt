// What a sheet holds. Its plan is its first bytes, and its marks are its last.
ghost use Rattle.std.specs.Prelude.{◌≡◌, ◌-◌, length, drop};
ghost use Rattle.plan.specs.Refusals.{number_of};
ghost use Rattle.sheet.specs.Sheet.{read_refused, read_column, marks_of};
ghost use Rattle.handed.specs.Sheets.{read_span};

use fields::{Tag, body};
use plan::Refusal;

// The readings of a sheet in the first places of the column, and how many of its first bytes are its plan.
pub fn read(sheet: &[u8], readings: &mut [i32], span: &mut usize) -> Result<(), Refusal>
    ensures value { number_of result ≡ read_refused sheet.now (length readings.old) }
    ensures readings_after { readings.new ≡ read_column sheet.now readings.old }
    ensures span_after { span.new ≡ read_span sheet.now (length readings.old) span.old }
{
    sheet::read(sheet, readings)?;
    let own = body(sheet, Tag::Readings as u8, 0);
    let marks = body(sheet, Tag::Marks as u8, 0);
    *span = sheet.len() - (3 + own.len()) - (3 + marks.len());
    Ok(())
}

// How many of the last bytes of a sheet are its marks; none where the sheet is refused.
pub fn marks(sheet: &[u8]) -> usize
    ensures value { result ≡ length (marks_of sheet.now) }
    ensures sheet_value { drop (length sheet.now - result) sheet.now ≡ marks_of sheet.now }
{
    let part = sheet::marks(sheet);
    part.len()
}
