// The walk over the totals of a plan, by its levels.
ghost use Rattle.std.specs.Prelude.{◌≡◌, length};
ghost use Rattle.contrasts.specs.Columns.{read};
ghost use Rattle.plan.specs.Plan.{runs_of};
ghost use Rattle.walks.specs.After.{rows_after, sums_after};
ghost use Rattle.walks.specs.Ready.{PlanWalkable};
ghost use Rattle.walks.specs.State.{zeros};

use super::three_levels::walk_three;
use super::two_levels::walk_two;
use super::types::Sums;
use effects::{put_rows, put_weights};
use plan::Plan;
use rows::kinds;

// All rows are 0.
#[tactic(auto, using(crate::proofs::Walked::cleared))]
fn clear(rows: &mut [u64])
    ensures { rows.new ≡ zeros (length rows.old) }
{
    rows.fill(0);
}

// All totals of a plan: each brings its numerator to its row and to the sum of its row's kind, and a degree with it.
// The arms take different lists, and each is a loop of its own for speed: no trait would be plainer.
pub fn walk(p: Plan, totals: &[i64], marks: &[u8], rows: &mut [u64]) -> Sums
    requires { PlanWalkable p totals.now rows.old }
    ensures value { result ≡ sums_after p (read totals.now) marks.now (runs_of p) }
    ensures rows_after { rows.new ≡ rows_after p (read totals.now) (runs_of p) }
{
    clear(rows);
    let kinds = kinds(p, marks);
    if p.levels == 2 {
        return walk_two(totals, &kinds, rows);
    }
    let mut effects = [0u16; 1024];
    put_rows(p, &mut effects);
    let mut weights = [0u32; 1024];
    put_weights(p, &mut weights);
    walk_three(totals, &effects, &weights, &kinds, rows)
}
