// The walk over the totals of a two-level plan.
ghost use Rattle.std.specs.Prelude.{length};
ghost use Rattle.walks.specs.Inner.Ready.{WalkableTwo};
ghost use Rattle.walks.specs.Inner.Walk.{WalkedTwo};

use super::bringing::bring_two;
use super::parts::gather;
use super::types::Sums;
use rows::Kind;

// Row and effect have one number, and all weights are 1. A turn is two effects, one for each part of the sums.
pub fn walk_two(totals: &[i64], kinds: &[Kind], rows: &mut [u64]) -> Sums
    requires { WalkableTwo totals.now kinds.now rows.old }
    ensures { WalkedTwo totals.now kinds.now (length rows.old) result rows.new }
{
    let mut parts = [0u64; 16];
    let mut sum = 0;
    for pair in 0..totals.len() / 2 {
        let e = 2 * pair;
        let first = totals[e];
        bring_two(e, first, kinds[e], 0, rows, &mut parts);
        sum += first;
        let second = totals[e + 1];
        bring_two(e + 1, second, kinds[e + 1], 1, rows, &mut parts);
        sum += second;
    }
    gather(&parts, sum)
}
