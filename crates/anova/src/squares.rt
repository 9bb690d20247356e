// The sum of squared readings, and their squares about their run's mean.
ghost use Rattle.std.specs.Prelude.{◌≡◌, ◌^◌, ◌<◌, ℤ, length, sum_by};
ghost use Rattle.anova.specs.Inner.Ready.{RunSquares};
ghost use Rattle.anova.specs.Inner.Readings.{about_means, squared};

use repeats::sum_runs;
use walks::square;

// What can be squared: a reading or a run sum, with the whole number that it is.
pub trait Whole: Copy + Into<i64> {
    ghost whole: { Self → ℤ };

    ghost converts_whole: { (x : Self) (n : ℤ) → Self.converts x n → n ≡ whole x };
}

impl Whole for i32 {
    ghost whole = { λ x. x };

    ghost converts_whole = { λ x n h. h };
}

impl Whole for i64 {
    ghost whole = { λ x. x };

    ghost converts_whole = { λ x n h. h };
}

// The sum of the squares of readings, or of run sums.
pub fn sum_of_squares<T: Whole>(column: &[T]) -> u64
    requires { sum_by (λ x. squared (T.whole x)) column.now < 2 ^ 63 }
    ensures { result ≡ sum_by (λ x. squared (T.whole x)) column.now }
{
    let mut sum = 0;
    for x in column {
        sum += square((*x).into());
    }
    sum
}

// The squares of readings about their run's mean, as often as a run is made, from the squares of all readings. The column is used for the
// run sums; of runs made once there are none, and it stays.
pub fn about_means(readings: &[i32], repeats: usize, squares: u64, column: &mut [i64]) -> u64
    requires { RunSquares repeats squares readings.now column.old }
    ensures value { result ≡ about_means (length column.old) repeats readings.now }
    ensures column_len_unchanged { length column.new ≡ length column.old }
{
    if repeats == 1 {
        return 0;
    }
    sum_runs(readings, repeats, column);
    (repeats as u64) * squares - sum_of_squares(column)
}
