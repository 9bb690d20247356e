// How many runs and readings a plan has, and how far apart the values of a factor lie.
ghost use Rattle.std.specs.Prelude.{◌≡◌, ◌^◌, ◌≤◌};
ghost use Rattle.plan.specs.Check.{run_count, reading_count, spacing_at};

use super::conditions::{bad_factors, bad_levels, times};
use super::types::Plan;

// The base multiplied k times.
pub fn to_the_power(base: usize, k: usize) -> usize
    requires { (base ≤ 3) × (k ≤ 10) }
    ensures { result ≡ base ^ k }
{
    base.pow(k as u32)
}

// How many runs there are, and 0 where the levels or the number of factors are refused.
pub fn runs(p: Plan) -> usize
    ensures { result ≡ run_count p }
{
    if bad_levels(p.levels) {
        return 0;
    }
    if bad_factors(p.levels, p.k) {
        return 0;
    }
    to_the_power(p.levels as usize, p.k as usize)
}

// How many readings there are: so many for each run as it is made. 0 where `runs` is.
pub fn reading_count(p: Plan) -> usize
    ensures { result ≡ reading_count p }
{
    times(runs(p), p.repeats)
}

// How many places apart the values of a factor lie in a column of runs, and 0 where there is no such factor or `runs` is 0.
pub fn spacing(p: Plan, factor: usize) -> usize
    ensures { result ≡ spacing_at p factor }
{
    if bad_levels(p.levels) {
        return 0;
    }
    if bad_factors(p.levels, p.k) {
        return 0;
    }
    if (p.k as usize) <= factor {
        return 0;
    }
    to_the_power(p.levels as usize, factor)
}
