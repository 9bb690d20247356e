// Refusal 12: values beyond a limit, either way.
ghost use Rattle.std.specs.Prelude.{◌≡◌, ◌^◌, ◌<◌};
ghost use Rattle.contrasts.specs.Limits.{value_limit};
ghost use Rattle.plan.specs.Limits.{reading_limit, is_beyond};
ghost use Rattle.columns.specs.Refusals.{any_beyond};

use super::bits::all_bits;
use plan::Plan;
use sizes::{is_beyond, reading_limit};

const VALUE_LIMIT: u32 = 1_024_000_000;

// Whether a pass or a step refuses a value of the column, by a search.
#[tactic(auto, unfolding(crate::specs::Refusals::any_beyond, contrasts::specs::Limits::value_limit))]
fn search_values(column: &[i64]) -> bool
    ensures { result ≡ any_beyond value_limit column.now }
{
    column.iter().any(|value| is_beyond(*value, VALUE_LIMIT))
}

// Whether a pass or a step refuses a value of the column. Where no size reaches 2 to the power 29, as in nearly every column, there is no
// search.
pub fn any_value_beyond(column: &[i64]) -> bool
    ensures { result ≡ any_beyond value_limit column.now }
{
    if all_bits(column) < 536_870_912 {
        return false;
    }
    search_values(column)
}

// Whether a reading is beyond a limit. Both comparisons are made, and the loop that calls this does not stop early, so it is compiled to work
// several readings at a time. One comparison of its size takes 1.4 times as long, in copies of the loop.
fn is_reading_beyond(x: i32, limit: u32) -> bool
    requires { limit < 2 ^ 31 }
    ensures { result ≡ is_beyond limit x }
{
    let most = limit as i32;
    (most < x) | (x < -most)
}

// Whether a reading of the column is beyond a limit.
#[tactic(auto, using(std::proofs::lemmas::List::Folds::list_any_more), unfolding(crate::specs::Refusals::any_beyond))]
fn any_beyond(readings: &[i32], limit: u32) -> bool
    requires { limit < 2 ^ 31 }
    ensures { result ≡ any_beyond limit readings.now }
{
    let mut any = false;
    for reading in readings {
        any |= is_reading_beyond(*reading, limit);
    }
    any
}

// Whether a reading of the column is refused, by the limit of the plan.
pub fn any_reading_beyond(p: Plan, readings: &[i32]) -> bool
    ensures { result ≡ any_beyond (reading_limit p) readings.now }
{
    any_beyond(readings, reading_limit(p))
}
