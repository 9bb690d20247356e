// The divisors of effects, with runs made r times.
ghost use Rattle.std.specs.Prelude.{◌≡◌, cond, ◌*◌, ◌^◌, ◌≤◌, ltb, replicate};
ghost use Rattle.algebra.specs.Tab.{tab};
ghost use Rattle.contrasts.proofs.Factors.{three};
ghost use Rattle.contrasts.specs.Totals.{divisor*};
ghost use Rattle.effects.specs.Effects.{effect_divisors};

use super::fewer::fewer_factors;
use plan::Plan;
use sizes::runs;

// At two levels all divisors are r times the number of runs, which is 2 to the power k.
fn divisors_of_two(n: usize, repeats: u8) -> [u32; 1024]
    requires { n ≤ 1024 }
    ensures { result ≡ tab 1024 (λ e. cond (ltb e n) (repeats * n) 1) }
{
    let divisor = (repeats as u32) * (n as u32);
    let mut divisors = [1u32; 1024];
    divisors[..n].fill(divisor);
    divisors
}

// At three levels they are r times those of the table for so many factors. There are n effects.
fn divisors_of_three(n: usize, k: usize, repeats: u8) -> [u32; 1024]
    requires { (n ≡ 3 ^ k) × (k ≤ 6) × (n ≤ 729) }
    ensures { result ≡ tab 1024 (λ e. cond (ltb e n) (repeats * divisor* (replicate k three) e) 1) }
{
    let table = fewer_factors(k);
    let mut divisors = [1u32; 1024];
    for e in 0..n {
        divisors[e] = (repeats as u32) * table[e];
    }
    divisors
}

// The divisor of each effect, and 1 where a plan has no such effect.
// The arms fill their tables in different ways: two functions, and no trait.
pub fn divisors(p: Plan) -> [u32; 1024]
    ensures { result ≡ effect_divisors p }
{
    let n = runs(p);
    if n == 0 {
        return [1; 1024];
    }
    if p.levels == 2 {
        return divisors_of_two(n, p.repeats);
    }
    divisors_of_three(n, p.k as usize, p.repeats)
}
