// The sums of runs: readings come so many at a time for each run, in run order.
ghost use Rattle.std.specs.Prelude.{◌≡◌, length};
ghost use Rattle.contrasts.specs.Columns.{read, run_sums_in};
ghost use Rattle.contrasts.specs.Repeats.{run_sums};
ghost use Rattle.repeats.specs.Ready.{RunOf, AllRuns};

use columns::copy;

// The sum of a run's readings.
pub fn run_sum(readings: &[i32], repeats: usize, run: usize) -> i64
    requires { RunOf repeats run readings.now }
    ensures { result ≡ run_sums repeats (read readings.now) run }
{
    let start = run * repeats;
    let mut sum = 0;
    for reading in &readings[start..start + repeats] {
        sum += i64::from(*reading);
    }
    sum
}

// The sums of runs, one after the other.
fn put_sums(readings: &[i32], repeats: usize, column: &mut [i64])
    requires { AllRuns repeats readings.now column.old }
    ensures { column.new ≡ run_sums_in (length column.old) repeats readings.now }
{
    for (run, sum) in column.iter_mut().enumerate() {
        *sum = run_sum(readings, repeats, run);
    }
}

// The sums of all runs. Of runs that are made once they are the readings.
pub fn sum_runs(readings: &[i32], repeats: usize, column: &mut [i64])
    requires { AllRuns repeats readings.now column.old }
    ensures { column.new ≡ run_sums_in (length column.old) repeats readings.now }
{
    if repeats == 1 {
        copy(readings, column);
    } else {
        put_sums(readings, repeats, column);
    }
}
