// Several words: whether one is among them, and what they combine to.
ghost use Rattle.std.specs.Prelude.{◌≡◌, ◌^◌, ◌≤◌, cond, ltb};
ghost use Rattle.std.specs.Int.Bits.{bit_xor};
ghost use Rattle.words.specs.Words.{among, repeated, combined};

use super::letters::has_letter;

// Whether the word is one of the words.
#[tactic(auto, unfolding(crate::specs::Words::among, crate::specs::Words::any))]
pub fn is_among(word: u16, words: &[u16]) -> bool
    ensures { result ≡ among word words.now }
{
    words.iter().any(|other| *other == word)
}

// Whether a word occurs twice: it is among those before it.
pub fn is_repeated(words: &[u16]) -> bool
    ensures { result ≡ repeated words.now }
{
    for (i, word) in words.iter().enumerate() {
        if is_among(*word, &words[..i]) {
            return true;
        }
    }
    false
}

// The word combined with another, or as it is.
fn combine_if(chosen: bool, word: u16, other: u16) -> u16
    ensures { result ≡ cond chosen (bit_xor word other) word }
{
    if chosen { word ^ other } else { word }
}

// The first word combined with those of the words that are chosen, bit j for word j.
pub fn combine(first: u16, chosen: u16, words: &[u16]) -> u16
    ensures { result ≡ combined first chosen words.now }
{
    let mut word = first;
    for (j, other) in words.iter().enumerate() {
        word = combine_if(has_letter(chosen, j), word, *other);
    }
    word
}

// How many ways there are to choose none, some or all of so many words, and 0 where that is beyond 16 bits.
pub fn choices(words: usize) -> u16
    ensures value { result ≡ cond (ltb words 16) (2 ^ words) 0 }
    ensures few { words ≤ 4 → (result ≡ 2 ^ words) × (result ≤ 16) }
{
    if words < 16 { 1u16 << words } else { 0 }
}
