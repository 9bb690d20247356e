// The table as numbers in slices that the caller lends.
ghost use Rattle.std.specs.Prelude.{◌≡◌, length};
ghost use Rattle.plan.specs.Refusals.{number_of};
ghost use Rattle.anova.specs.Table.{table_refused};
ghost use Rattle.screening.specs.Screening.{screen_refused};
ghost use Rattle.figures.specs.Numbers.{figure_numbers, check_numbers, left_by, wrong_room, TableLeft};

use anova::Figures;
use plan::{Plan, Refusal};

const FIGURES: usize = 11;

const CHECKS: usize = 2;

// Whether the slices for figures and checks have other lengths than theirs.
#[tactic(auto, unfolding(crate::specs::Numbers::wrong_room))]
pub fn wrong_room(figures: usize, checks: usize) -> bool
    ensures { result ≡ wrong_room figures checks }
{
    figures != FIGURES || checks != CHECKS
}

// Denominator, then degrees and numerator of mean, kept effects, blocks, error and total.
// (Eleven places and two. May not change: `tabulate` takes slices.)
fn put_figures(f: Figures, figures: &mut [u64])
    requires { length figures.old ≡ 11 }
    ensures { figures.new ≡ figure_numbers f }
{
    figures.copy_from_slice(&[
        f.denominator,
        f.mean.degrees,
        f.mean.numerator,
        f.kept.degrees,
        f.kept.numerator,
        f.blocks.degrees,
        f.blocks.numerator,
        f.error.degrees,
        f.error.numerator,
        f.total.degrees,
        f.total.numerator,
    ]);
}

// The sum of the totals, then what it must be by the run sums.
fn put_checks(f: Figures, checks: &mut [i64])
    requires { length checks.old ≡ 2 }
    ensures { checks.new ≡ check_numbers f }
{
    checks.copy_from_slice(&[f.checks.totals, f.checks.readings]);
}

// What a call for a table gives, put in the slices.
fn put(
    answer: Result<Figures, Refusal>,
    figures: &mut [u64],
    checks: &mut [i64],
) -> Result<(), Refusal>
    requires { (length figures.old ≡ 11) × (length checks.old ≡ 2) }
    ensures number { number_of result ≡ number_of answer }
    ensures figures_after { figures.new ≡ left_by answer figure_numbers figures.old }
    ensures checks_after { checks.new ≡ left_by answer check_numbers checks.old }
{
    let f = answer?;
    put_figures(f, figures);
    put_checks(f, checks);
    Ok(())
}

// The table call, where there is room for figures and checks.
pub fn tabulate(
    p: Plan,
    readings: &[i32],
    marks: &[u8],
    totals: &mut [i64],
    rows: &mut [u64],
    figures: &mut [u64],
    checks: &mut [i64],
) -> Result<(), Refusal>
    requires { (length figures.old ≡ 11) × (length checks.old ≡ 2) }
    ensures { TableLeft (table_refused p readings.now marks.now totals.old rows.old)
        p readings.now marks.now
        totals.old rows.old figures.old checks.old
        (number_of result) totals.new rows.new figures.new checks.new }
{
    let answer = anova::table(p, readings, marks, totals, rows);
    put(answer, figures, checks)
}

// The screening call, where there is room for figures and checks.
pub fn screened(
    p: Plan,
    readings: &[i32],
    marks: &[u8],
    totals: &mut [i64],
    rows: &mut [u64],
    figures: &mut [u64],
    checks: &mut [i64],
) -> Result<(), Refusal>
    requires { (length figures.old ≡ 11) × (length checks.old ≡ 2) }
    ensures { TableLeft (screen_refused p readings.now marks.now totals.old rows.old)
        p readings.now marks.now
        totals.old rows.old figures.old checks.old
        (number_of result) totals.new rows.new figures.new checks.new }
{
    let answer = screening::screen(p, readings, marks, totals, rows);
    put(answer, figures, checks)
}
