// The sums over the denominator: readings, where all are whole and within the limit.
ghost use Rattle.std.specs.Prelude.{◌≡◌, ◌<◌, ◌^◌, pos, nat_abs, ◌*ℤ◌};
ghost use Rattle.std.specs.Int.Signed.{quot_z};
ghost use Rattle.contrasts.proofs.Laws.Recovery.{missed, any_missed, quotients};
ghost use Rattle.recovery.specs.Inner.Lent.{Sums, Narrow};

use sizes::is_beyond;

// A sum over the denominator, cut off: the quotient of its size, with its sign. The division of an i64 is compiled with a jump that goes by its
// sign, which cannot be foreseen; here both signs take one way.
fn quotient(sum: i64, denominator: u32) -> i64
    requires { (0 < denominator) × (nat_abs sum < 2 ^ 63) }
    ensures { result ≡ quot_z sum (pos denominator) }
{
    let whole = (sum.unsigned_abs() / u64::from(denominator)) as i64;
    if sum < 0 { -whole } else { whole }
}

// Whether a sum is not the denominator times the reading, or the reading is beyond the limit.
#[tactic(auto, unfolding(plan::specs::Limits::is_beyond))]
fn is_missed(sum: i64, reading: i64, denominator: u32, limit: u32) -> bool
    requires { nat_abs (pos denominator *ℤ reading) < 2 ^ 63 }
    ensures { result ≡ missed denominator limit sum reading }
{
    i64::from(denominator) * reading != sum || is_beyond(reading, limit)
}

// Each sum becomes its quotient, also after one that is missed. The answer says whether any is.
pub fn divide(column: &mut [i64], denominator: u32, limit: u32) -> bool
    requires { Sums denominator limit column.old }
    ensures value { result ≡ any_missed denominator limit column.old }
    ensures column_after { column.new ≡ quotients denominator column.old }
{
    let mut any = false;
    for sum in column.iter_mut() {
        let reading = quotient(*sum, denominator);
        any |= is_missed(*sum, reading, denominator, limit);
        *sum = reading;
    }
    any
}

// The values of a column as readings; each fits.
pub fn put(column: &[i64], readings: &mut [i32])
    requires { Narrow column.now readings.old }
    ensures { readings.new ≡ column.now }
{
    for (i, value) in column.iter().enumerate() {
        readings[i] = *value as i32;
    }
}
