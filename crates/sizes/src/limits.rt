// How large a reading and a run sum of a plan may be, and whether a number is beyond a limit.
ghost use Rattle.std.specs.Prelude.{◌≡◌};
ghost use Rattle.plan.specs.Limits.{reading_limit, run_limit, is_beyond};

use plan::Plan;

const TWO_READING_LIMIT: u32 = 1_000_000;

const THREE_READING_LIMIT: u32 = 100_000;

// The limit of a reading either way, by the levels.
#[tactic(auto, unfolding(plan::specs::Limits::reading_limit, contrasts::specs::Limits::two_reading_limit, contrasts::specs::Limits::three_reading_limit))]
pub fn reading_limit(p: Plan) -> u32
    ensures { result ≡ reading_limit p }
{
    if p.levels == 2 {
        TWO_READING_LIMIT
    } else {
        THREE_READING_LIMIT
    }
}

// The limit of a run sum either way.
pub fn run_limit(p: Plan) -> u32
    ensures { result ≡ run_limit p }
{
    u32::from(p.repeats) * reading_limit(p)
}

// Whether a number is beyond a limit either way.
#[tactic(auto, unfolding(plan::specs::Limits::is_beyond))]
pub fn is_beyond(x: i64, limit: u32) -> bool
    ensures { result ≡ is_beyond limit x }
{
    x.unsigned_abs() > u64::from(limit)
}
