// The letters of one word.
ghost use Rattle.std.specs.Prelude.{◌≡◌};
ghost use Rattle.words.specs.Words.{has, beyond, letters, odd_word, odd_in};

// Whether letter i, 0 for A, stands in the word.
pub fn has_letter(word: u16, i: usize) -> bool
    ensures { result ≡ has word i }
{
    if 16 <= i {
        return false;
    }
    (word >> i) % 2 == 1
}

// Whether the word has a letter from n on.
pub fn has_beyond(word: u16, n: usize) -> bool
    ensures { result ≡ beyond n word }
{
    if n >= 16 {
        return false;
    }
    word >> n != 0
}

pub fn count_letters(word: u16) -> u32
    ensures { result ≡ letters word }
{
    u16::count_ones(word)
}

// Whether the word has an odd number of letters.
pub fn is_odd_word(word: u16) -> bool
    ensures { result ≡ odd_word word }
{
    count_letters(word) % 2 == 1
}

// Whether an odd number of the word's letters are high in the run.
pub fn is_odd(run: u16, word: u16) -> bool
    ensures { result ≡ odd_in run word }
{
    u16::count_ones(run & word) % 2 == 1
}
