// Which effects are lost to blocks.
ghost use Rattle.std.specs.Prelude.{◌≡◌};
ghost use Rattle.plan.specs.Check.{confounded_accepted};

use super::checks::check;
use super::conditions::combines_to;
use super::types::Plan;

// Whether the effect of a word is confounded; no effect of a plan that is refused.
#[tactic(auto, unfolding(crate::specs::Check::confounded_accepted))]
pub fn confounded(p: Plan, word: u16) -> bool
    ensures { result ≡ confounded_accepted p word }
{
    if check(p).is_err() {
        return false;
    }
    combines_to(word, p.block_words())
}
