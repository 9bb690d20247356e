// The weights of effects: denominator over divisor. Each comes from that of a lower effect, so that none needs a division.
ghost use Rattle.std.specs.Prelude.{◌≡◌, cond, ◌^◌, ◌<◌, ◌≤◌, ltb, replicate};
ghost use Rattle.algebra.specs.Tab.{tab};
ghost use Rattle.contrasts.proofs.Factors.{three};
ghost use Rattle.contrasts.specs.Totals.{weight*};
ghost use Rattle.effects.specs.Effects.{effect_weights};

use plan::Plan;
use sizes::runs;

// At two levels all weights are 1.
fn put_weights_of_two(n: usize, weights: &mut [u32; 1024])
    requires { (n ≤ 1024) × (weights.old ≡ replicate 1024 0) }
    ensures { weights.new ≡ tab 1024 (λ e. cond (ltb e n) 1 0) }
{
    for e in 0..n {
        weights[e] = 1;
    }
}

// At three levels a weight is the product of 2, 3 or 1 by digit. Effect q has a 2 for its last digit, which is 0. The effects 3 q, 3 q + 1 and
// 3 q + 2 have its other digits, each moved on by one, and for the lowest a 2, 3 or 1. There are n effects of k factors.
fn put_weights_of_three(n: usize, k: usize, weights: &mut [u32; 1024])
    requires known { (n ≡ 3 ^ k) × (0 < k) × (k ≤ 6) × (n ≤ 729) }
    requires fresh { weights.old ≡ replicate 1024 0 }
    ensures { weights.new ≡ tab 1024 (λ e. cond (ltb e n) (weight* (replicate k three) e) 0) }
{
    weights[0] = 1u32 << k;
    for q in 0..n / 3 {
        let whole = weights[q];
        let half = whole / 2;
        let e = q * 3;
        weights[e] = whole;
        weights[e + 1] = 3 * half;
        weights[e + 2] = half;
    }
}

// The weight of each effect is put in its place, and 0 where a plan has no such effect. (Speed and stack: a list that a function answers is copied.)
// The arms fill their tables in different ways: two functions, and no trait.
pub fn put_weights(p: Plan, weights: &mut [u32; 1024])
    ensures { weights.new ≡ effect_weights p }
{
    *weights = [0u32; 1024];
    let n = runs(p);
    if n == 0 {
        return;
    }
    if p.levels == 2 {
        return put_weights_of_two(n, weights);
    }
    put_weights_of_three(n, p.k as usize, weights);
}

// The weight of each effect, and 0 where a plan has no such effect.
pub fn weights(p: Plan) -> [u32; 1024]
    ensures { result ≡ effect_weights p }
{
    let mut weights = [0u32; 1024];
    put_weights(p, &mut weights);
    weights
}
