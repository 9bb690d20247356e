// Whether two words combine to a word of a list.
ghost use Rattle.std.specs.Prelude.{◌≡◌};
ghost use Rattle.std.specs.Int.Bits.{bit_xor};
ghost use Rattle.words.specs.Words.{any, among};
ghost use Rattle.screening.specs.Inner.Formed.{some_pair};

use words::is_among;

// Whether a word and one before it combine to one of the mains.
#[tactic(auto, unfolding(words::specs::Words::any))]
fn is_met(before: &[u16], word: u16, mains: &[u16]) -> bool
    ensures { result ≡ any (λ other. among (bit_xor other word) mains.now) before.now }
{
    before.iter().any(|other| is_among(*other ^ word, mains))
}

// Whether two of the words combine to one of the mains.
pub fn any_met(words: &[u16], mains: &[u16]) -> bool
    ensures { result ≡ some_pair words.now mains.now }
{
    for (j, word) in words.iter().enumerate() {
        if is_met(&words[..j], *word, mains) {
            return true;
        }
    }
    false
}
