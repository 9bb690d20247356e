// The rows of effects: each effect belongs to the row of the letters that it uses.
ghost use Rattle.std.specs.Prelude.{◌≡◌, cond, ◌%◌, ◌≤◌, ltb, replicate};
ghost use Rattle.algebra.specs.Tab.{tab};
ghost use Rattle.contrasts.specs.Rows.{row_of};
ghost use Rattle.contrasts.proofs.Factors.{three};
ghost use Rattle.effects.specs.Effects.{effect_rows};

use plan::Plan;
use sizes::runs;

// At two levels an effect's row is its own number.
// (How many effects there are is a number that `runs` answers; a type for it, here and for divisors and weights, would be opened at each place.)
fn put_rows_of_two(n: usize, rows: &mut [u16; 1024])
    requires { (n ≤ 1024) × (rows.old ≡ replicate 1024 0) }
    ensures { rows.new ≡ tab 1024 (λ e. cond (ltb e n) e 0) }
{
    for e in 0..n {
        rows[e] = e as u16;
    }
}

// At three levels the effects 3 q, 3 q + 1 and 3 q + 2 have the letters of effect q, each moved on by one, and the last two the first letter
// too. An effect of fewer factors than six has the same row as one of six.
fn put_rows_of_three(n: usize, rows: &mut [u16; 1024])
    requires { (n % 3 ≡ 0) × (n ≤ 729) × (rows.old ≡ replicate 1024 0) }
    ensures { rows.new ≡ tab 1024 (λ e. cond (ltb e n) (row_of (replicate 6 three) e) 0) }
{
    for q in 0..n / 3 {
        let moved = 2 * rows[q];
        let with_first = moved + 1;
        let e = q * 3;
        rows[e] = moved;
        rows[e + 1] = with_first;
        rows[e + 2] = with_first;
    }
}

// The row of each effect is put in its place, and 0 where a plan has no such effect. (Speed and stack: a list that a function answers is copied.)
// (The arms fill their tables in different ways: two functions, and no trait.)
pub fn put_rows(p: Plan, rows: &mut [u16; 1024])
    ensures { rows.new ≡ effect_rows p }
{
    *rows = [0u16; 1024];
    let n = runs(p);
    if p.levels == 2 {
        return put_rows_of_two(n, rows);
    }
    put_rows_of_three(n, rows);
}

// The row of each effect, and 0 where a plan has no such effect.
pub fn rows(p: Plan) -> [u16; 1024]
    ensures { result ≡ effect_rows p }
{
    let mut rows = [0u16; 1024];
    put_rows(p, &mut rows);
    rows
}
