// The base words of main effects.
ghost use Rattle.std.specs.Prelude.{◌≡◌, ◌+◌, ◌^◌, ◌≤◌, ◌<◌, length, take};
ghost use Rattle.algebra.specs.Tab.{tab};
ghost use Rattle.aliases.specs.Alias.{base_word};
ghost use Rattle.screening.specs.Inner.Formed.{main_formed};

// The word of factor i: a base factor's is its letter, an added factor's the word that the plan has for it.
fn main_word(i: usize, k: usize, words: &[u16]) -> u16
    requires { (k ≤ 10) × (i < k + length words.now) }
    ensures { result ≡ main_formed k words.now i }
{
    if i < k {
        return 1u16 << i;
    }
    words[i - k]
}

// The base words of the main effects of all factors, at the first places; k base factors, and the words of the added ones.
pub fn main_words(k: usize, words: &[u16]) -> [u16; 16]
    requires { (k ≤ 10) × (length words.now ≤ 6) }
    ensures { take (k + length words.now) result
        ≡ tab (k + length words.now) (λ i. base_word k words.now (2 ^ i)) }
{
    let mut mains = [0u16; 16];
    for i in 0..k + words.len() {
        mains[i] = main_word(i, k, words);
    }
    mains
}
