// A column that a call is lent: what it held before, and a number that tells what it holds.
ghost use Rattle.std.specs.Prelude.{◌≡◌, ◌<◌, ◌≤◌, ◌^◌, ℕ, ℤ, length};
ghost use Rattle.worked.specs.Columns.{kept_from, checksum_of};

// How many places hold what they held before the call, by their number.
pub fn kept<T: Copy + PartialEq, F: Fn(usize) -> T>(column: &[T], before: F) -> usize
    requires callable { (place : ℕ) → F.pre before place }
    ensures few { result ≤ length column.now }
    ensures count { (f : ℕ → T) → ((place : ℕ) (value : T) → F.post before place value → value ≡ f place) → result ≡ kept_from T.eq f 0 column.now }
{
    let mut n = 0;
    for (place, value) in column.iter().enumerate() {
        n += usize::from(*value == before(place));
    }
    n
}

// For each value in turn, `factor` times the number so far and the value, by the modulus.
pub fn checksum<T: Copy + Into<i64>>(values: &[T], factor: u64, modulus: u64) -> u64
    requires { (0 < modulus) × (modulus < 2 ^ 32) × (factor < 2 ^ 31) }
    ensures { (whole : T → ℤ) → ((value : T) (n : ℤ) → T.converts value n → n ≡ whole value) → result ≡ checksum_of whole factor modulus values.now }
{
    let mut sum = 0;
    for value in values {
        let rest = (*value).into().rem_euclid(modulus as i64);
        sum = (sum * factor + rest.unsigned_abs()) % modulus;
    }
    sum
}
