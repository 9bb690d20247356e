// The sums of the four kinds while the walk goes on. Each sum is held in two parts, to which successive effects are added in turn: an addition
// then waits for the last but one before it, and not for the last. A part's degrees stand beside its numerators, so that both are added at once.
// They are one list of 16 numbers, and no structs, since `held_in` and the courses of specs/State, of which the claim `OneWalk` speaks, are of such a list.
ghost use Rattle.std.specs.Prelude.{◌≡◌, ◌<◌};
ghost use Rattle.algebra.specs.Tab.{tab};
ghost use Rattle.rows.specs.Kinds.{code_of};
ghost use Rattle.walks.specs.State.{brought, held_in, place_of, sum_in, two_parts};
ghost use Rattle.walks.specs.Inner.Ready.{Addable, Joinable, Gatherable};

use super::types::Sums;
use rows::Kind;

// Where a part of a kind's sum stands: the first, 0, or the second, 1.
pub fn place_of(kind: Kind, half: usize) -> usize
    requires { half < 2 }
    ensures { result ≡ place_of (code_of kind) half }
{
    4 * (kind as usize) + 2 * half
}

// A numerator is added to a part, and a degree with it.
pub fn add(place: usize, numerator: u64, parts: &mut [u64])
    requires { Addable place numerator parts.old }
    ensures { parts.new ≡ brought parts.old place numerator }
{
    parts[place] += numerator;
    parts[place + 1] += 1;
}

// Both parts of a sum.
fn both(parts: &[u64], place: usize) -> u64
    requires { Joinable place parts.now }
    ensures { result ≡ two_parts parts.now place }
{
    parts[place] + parts[place + 2]
}

// The four sums of numerators, which begin at place 0, or of degrees, which begin at place 1.
fn join(parts: &[u64], first: usize) -> [u64; 4]
    requires { Gatherable parts.now × (first < 2) }
    ensures { result ≡ tab 4 (sum_in parts.now first) }
{
    [
        both(parts, first),
        both(parts, first + 4),
        both(parts, first + 8),
        both(parts, first + 12),
    ]
}

// All sums, when the walk is over.
pub fn gather(parts: &[u64], totals: i64) -> Sums
    requires { Gatherable parts.now }
    ensures { result ≡ held_in parts.now totals }
{
    let numerators = join(parts, 0);
    let degrees = join(parts, 1);
    Sums {
        numerators,
        degrees,
        totals,
    }
}
