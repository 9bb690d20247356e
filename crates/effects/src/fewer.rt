// The divisors of three-level plans with fewer than six factors.
ghost use Rattle.std.specs.Prelude.{◌≡◌};
ghost use Rattle.effects.specs.Inner.Divisors.{divisors_of, thirds};

use super::constants::six_factors;

// Each divisor, divided by 3.
fn divide_by_three(divisors: &mut [u32])
    ensures { divisors.new ≡ thirds divisors.old }
{
    for divisor in divisors.iter_mut() {
        *divisor /= 3;
    }
}

// The divisors of k factors: the entry divided by 3 for each factor missing of six.
pub fn fewer_factors(k: usize) -> [u32; 729]
    ensures { result ≡ divisors_of k }
{
    let mut divisors = six_factors();
    for _ in k..6 {
        divide_by_three(&mut divisors);
    }
    divisors
}
