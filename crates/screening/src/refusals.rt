// What the screening call refuses.
ghost use Rattle.std.specs.Prelude.{◌≡◌};
ghost use Rattle.words.specs.Words.{any};
ghost use Rattle.plan.specs.Refusals.{number_of};
ghost use Rattle.rows.specs.Kinds.{marked};
ghost use Rattle.screening.specs.Screening.{screen_refused};

use super::mains::main_words;
use super::pairs::any_met;
use anova::check_table;
use plan::{Plan, Refusal, check};
use rows::is_marked;

// Whether the row of one of the words has mark 1.
#[tactic(auto, unfolding(words::specs::Words::any))]
fn any_marked(mains: &[u16], marks: &[u8]) -> bool
    ensures { result ≡ any (marked marks.now) mains.now }
{
    mains
        .iter()
        .any(|main| is_marked(marks, usize::from(*main)))
}

// The first refusal that applies.
pub fn check_screen(
    p: Plan,
    readings: &[i32],
    marks: &[u8],
    totals: &[i64],
    rows: &[u64],
) -> Result<(), Refusal>
    ensures { number_of result ≡ screen_refused p readings.now marks.now totals.now rows.now }
{
    check(p)?;
    let k = usize::from(p.k);
    let words = p.added_words();
    let factors = main_words(k, words);
    let mains = &factors[..k + words.len()];
    if any_met(mains, mains) {
        return Err(Refusal::Meeting);
    }
    let three_levels = p.levels == 3;
    if three_levels {
        return Err(Refusal::ThreeLevels);
    }
    check_table(p, readings, marks, totals, rows)?;
    if any_marked(mains, marks) {
        return Err(Refusal::Marks);
    }
    Ok(())
}
