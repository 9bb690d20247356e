// Block words of three-level plans: numbers whose digits to the base 3 go with the letters, A's the lowest.
ghost use Rattle.std.specs.Prelude.{◌≡◌, cond, ◌%◌, ◌≤◌, eqb, replicate};
ghost use Rattle.words.specs.Words.{any};
ghost use Rattle.contrasts.specs.Blocks.{block_of};
ghost use Rattle.contrasts.proofs.Factors.{three};
ghost use Rattle.contrasts.specs.Rows.{row_of};
ghost use Rattle.plan.specs.Check.{used_digits, lowest_digit, bad_digits};

use super::counts::to_the_power;

// 1 where the lowest digit is not zero, and else 0.
fn in_use(digits: u16) -> usize
    ensures { (result ≡ cond (eqb (digits % 3) 0) 0 1) × (result ≤ 1) }
{
    if digits % 3 == 0 { 0 } else { 1 }
}

// How many of the k lowest digits are not zero.
fn used_digits(word: u16, k: usize) -> usize
    ensures { result ≡ used_digits k word }
{
    let mut used = 0;
    let mut rest = word;
    for _i in 0..k {
        used += in_use(rest);
        rest /= 3;
    }
    used
}

// The first of these, from A's on, that is not zero, and 0 where all are.
fn lowest_digit(word: u16, k: usize) -> u16
    ensures { result ≡ lowest_digit k word }
{
    let mut rest = word;
    for _i in 0..k {
        if rest % 3 != 0 {
            return rest % 3;
        }
        rest /= 3;
    }
    0
}

// Whether a word breaks the digit rule.
#[tactic(auto, unfolding(crate::specs::Check::bad_digits))]
fn bad_digits(word: u16, k: usize) -> bool
    requires { k ≤ 10 }
    ensures { result ≡ bad_digits k word }
{
    to_the_power(3, k) <= (word as usize) || used_digits(word, k) < 2 || lowest_digit(word, k) != 1
}

#[tactic(auto, unfolding(words::specs::Words::any))]
pub fn any_bad_digits(words: &[u16], k: usize) -> bool
    requires { k ≤ 10 }
    ensures { result ≡ any (bad_digits k) words.now }
{
    words.iter().any(|word| bad_digits(*word, k))
}

// The row of the letters that a word uses: those whose digit is not zero.
pub fn row_of_digits(word: u16, k: usize) -> usize
    requires { k ≤ 6 }
    ensures { result ≡ row_of (replicate k three) word }
{
    let mut row = 0;
    let mut letter = 1;
    let mut rest = word;
    for _i in 0..k {
        row += letter * in_use(rest);
        letter *= 2;
        rest /= 3;
    }
    row
}

// The block of a run of k three-level factors: the sum of digit times level, modulo 3.
pub fn three_block(k: u8, word: u16, run: usize) -> u8
    ensures { result ≡ block_of (replicate k three) word run }
{
    let mut sum: usize = 0;
    let mut digits = word as usize;
    let mut levels = run;
    for _i in 0..k {
        sum += (digits % 3) * (levels % 3);
        digits /= 3;
        levels /= 3;
    }
    (sum % 3) as u8
}
