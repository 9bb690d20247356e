// The walk over the totals of a three-level plan.
ghost use Rattle.std.specs.Prelude.{length};
ghost use Rattle.walks.specs.Inner.Ready.{WalkableThree};
ghost use Rattle.walks.specs.Inner.Walk.{WalkedThree};

use super::bringing::bring_three;
use super::parts::gather;
use super::types::Sums;
use rows::Kind;

// Each effect has a row and a weight. The parts of the sums take turns.
pub fn walk_three(
    totals: &[i64],
    effects: &[u16],
    weights: &[u32],
    kinds: &[Kind],
    rows: &mut [u64],
) -> Sums
    requires { WalkableThree totals.now effects.now weights.now kinds.now rows.old }
    ensures { WalkedThree totals.now effects.now weights.now kinds.now (length rows.old) result rows.new }
{
    let mut parts = [0u64; 16];
    let mut sum = 0;
    for (e, total) in totals.iter().enumerate() {
        let total = *total;
        let row = effects[e] as usize;
        bring_three(row, total, weights[e], kinds[row], e % 2, rows, &mut parts);
        sum += total;
    }
    gather(&parts, sum)
}
