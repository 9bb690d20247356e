// The check number from the run sums.
ghost use Rattle.std.specs.Prelude.{◌≡◌, pos, ◌+ℤ◌, ◌-ℤ◌, ◌*ℤ◌, length, replicate};
ghost use Rattle.contrasts.specs.Columns.{read, run_sums_in};
ghost use Rattle.contrasts.proofs.Factors.{three, of_levels};
ghost use Rattle.contrasts.specs.Checks.{rounds};
ghost use Rattle.contrasts.proofs.Laws.Small.{Small};
ghost use Rattle.anova.specs.Inner.Ready.{Sets, Rounds, Checkable};
ghost use Rattle.anova.specs.Inner.Readings.{after_round};

use repeats::{run_sum, sum_runs};

// 3 times first minus middle plus third.
fn turned(first: i64, middle: i64, third: i64) -> i64
    requires { Small first × Small middle × Small third }
    ensures { result ≡ pos 3 *ℤ first -ℤ middle +ℤ third }
{
    3 * first - middle + third
}

// A round turns every successive set of three into one number, so many sets, in order.
fn round(column: &mut [i64], sets: usize)
    requires { Sets sets column.old }
    ensures { column.new ≡ after_round sets column.old }
{
    for i in 0..sets {
        column[i] = turned(column[3 * i], column[3 * i + 1], column[3 * i + 2]);
    }
}

// What the rounds leave: one number. The column is used up.
fn all_rounds(k: usize, column: &mut [i64]) -> i64
    requires { Rounds k column.old }
    ensures value { result ≡ rounds (replicate k three) (read column.old) }
    ensures column_len_unchanged { length column.new ≡ length column.old }
{
    let mut sets = column.len();
    for i in 0..k {
        sets /= 3;
        round(column, sets);
    }
    column[0]
}

// What the totals must add up to. At three levels the column is used for the rounds.
// At two levels there are no rounds: two ways to a number, which no trait would make plainer.
pub fn check_number(levels: u8, k: u8, repeats: usize, readings: &[i32], column: &mut [i64]) -> i64
    requires { Checkable levels k repeats readings.now column.old }
    ensures value { result ≡ rounds (replicate k (of_levels levels)) (read (run_sums_in (length column.old) repeats readings.now)) }
    ensures column_len_unchanged { length column.new ≡ length column.old }
{
    if levels == 2 {
        return (column.len() as i64) * run_sum(readings, repeats, 0);
    }
    sum_runs(readings, repeats, column);
    all_rounds(k as usize, column)
}
