// The combinations of one or more of some words.
ghost use Rattle.std.specs.Prelude.{◌≡◌, ◌<◌, ◌≤◌, Bool, false, ℕ, length};
ghost use Rattle.plan.specs.Plan.{some_combination};

use words::{choices, combine};

// Whether the test holds of a combination of one or more of the words.
// (A plan holds at most four. Of 16 words and more the choices are beyond 16 bits, and none is tried.)
pub fn some_combination<F: Fn(u16) -> bool>(words: &[u16], test: F) -> bool
    requires callable { (word : ℕ) → F.pre test word }
    ensures few { length words.now < 16
        → (f : ℕ → Bool) → ((word : ℕ) (answer : Bool) → F.post test word answer → answer ≡ f word) → result ≡ some_combination words.now f }
    ensures many { 16 ≤ length words.now → result ≡ false }
{
    for choice in 1..choices(words.len()) {
        if test(combine(0, choice, words)) {
            return true;
        }
    }
    false
}
