// The readings of a sheet, from the body of their field.
ghost use Rattle.std.specs.Prelude.{◌≡◌, length, map};
ghost use Rattle.std.specs.List.{list_any};
ghost use Rattle.plan.specs.Limits.{reading_limit, is_beyond};
ghost use Rattle.numerals.specs.Numbers.{big, twos};
ghost use Rattle.columns.specs.Refusals.{any_beyond};
ghost use Rattle.columns.specs.Copies.{copied};
ghost use Rattle.contents.specs.Contents.{readings_of};

use numerals::reading;
use plan::Plan;
use sizes::{is_beyond, reading_limit};

// The reading that four bytes are.
fn reading_of(four: &[u8; 4]) -> i32
    ensures { result ≡ twos 32 (big four.now) }
{
    let [a, b, c, d] = *four;
    reading(a, b, c, d)
}

// The bytes of each reading of a body.
fn fours(body: &[u8]) -> &[[u8; 4]]
    ensures { map (λ four. twos 32 (big four)) result.now ≡ readings_of body.now }
{
    let (fours, _) = body.as_chunks::<4>();
    fours
}

// Whether one of these readings is beyond a limit.
fn any_over(fours: &[[u8; 4]], limit: u32) -> bool
    ensures { result ≡ list_any (λ four. is_beyond limit (twos 32 (big four))) fours.now }
{
    fours
        .iter()
        .any(|four| is_beyond(i64::from(reading_of(four)), limit))
}

// Whether a reading is beyond the limit of the plan.
pub fn any_beyond(p: Plan, body: &[u8]) -> bool
    ensures { result ≡ any_beyond (reading_limit p) (readings_of body.now) }
{
    any_over(fours(body), reading_limit(p))
}

fn fill(fours: &[[u8; 4]], column: &mut [i32])
    requires { length column.old ≡ length fours.now }
    ensures { column.new ≡ map (λ four. twos 32 (big four)) fours.now }
{
    for (i, four) in fours.iter().enumerate() {
        column[i] = reading_of(four);
    }
}

// The readings are put into a column of as many places; a column of another length stays as it was.
pub fn put_readings(body: &[u8], column: &mut [i32])
    ensures { column.new ≡ copied (readings_of body.now) column.old }
{
    let fours = fours(body);
    if column.len() == fours.len() {
        fill(fours, column);
    }
}
