// The screening call.
ghost use Rattle.std.specs.Prelude.{◌≡◌};
ghost use Rattle.anova.specs.Table.{table_figures, table_outcome};
ghost use Rattle.plan.specs.Outcome.{outcome};
ghost use Rattle.screening.specs.Screening.{screen_refused, screen_totals, screen_rows};

use super::refusals::check_screen;
use anova::{Figures, table};
use plan::{Plan, Refusal};

// The table of a plan's readings, as the table call makes it, where the profile admits the plan and no main effect is marked as error.
pub fn screen(
    p: Plan,
    readings: &[i32],
    marks: &[u8],
    totals: &mut [i64],
    rows: &mut [u64],
) -> Result<Figures, Refusal>
    ensures result_value { table_outcome result ≡ outcome
        (screen_refused p readings.now marks.now totals.old rows.old)
        (table_figures p readings.now marks.now) }
    ensures totals_after { totals.new ≡ screen_totals p readings.now marks.now totals.old rows.old }
    ensures rows_after { rows.new ≡ screen_rows p readings.now marks.now totals.old rows.old }
{
    check_screen(p, readings, marks, totals, rows)?;
    table(p, readings, marks, totals, rows)
}
