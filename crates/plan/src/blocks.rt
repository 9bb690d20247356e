// The block word of a three-level plan: a number to the base 3. For any plan.
ghost use Rattle.std.specs.Prelude.{◌≡◌};
ghost use Rattle.plan.specs.Plan.{three_word};
ghost use Rattle.plan.specs.Check.{used_row};

use super::digits::row_of_digits;
use super::types::Plan;

// The block word of a three-level plan, and 0 where there is none.
pub fn three_word(p: Plan) -> u16
    ensures { result ≡ three_word p }
{
    p.three_words().first().copied().unwrap_or(0)
}

// The row of the letters that this word uses: 0, which has none, where there is no word or k is beyond every three-level plan's.
#[tactic(auto, unfolding(crate::specs::Check::used_row, contrasts::specs::Limits::most_three))]
pub fn word_row(p: Plan) -> usize
    ensures { result ≡ used_row p }
{
    if 6 < p.k {
        return 0;
    }
    row_of_digits(three_word(p), p.k as usize)
}
