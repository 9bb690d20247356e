// The passes of all factors, from the readings to the totals of all effects. Of runs that are made once two factors are worked in one go, where
// there are two; of others the run sums are formed first, and worked one factor after the other.
ghost use Rattle.std.specs.Prelude.{◌≡◌, length, replicate};
ghost use Rattle.contrasts.specs.Columns.{totals_of, run_sums_in};
ghost use Rattle.contrasts.proofs.Factors.{of_levels};
ghost use Rattle.passes.specs.Ready.{PassReadings, RunReadings};
ghost use Rattle.passes.specs.Inner.Lent.{SeveralFactors};

use super::stretches::{Pass, column_over};
use columns::copy;
use levels::{Three, Two, both_over, put_first};
use repeats::sum_runs;

// One factor after the other, A first, in place.
fn all_passes<L: Pass>(k: usize, column: &mut [i64])
    requires { PassReadings L.LEVELS k column.old }
    ensures { column.new ≡ totals_of (replicate k (of_levels L.LEVELS)) column.old }
{
    let mut spacing = 1;
    for _factor in 0..k {
        column_over::<L>(spacing, column);
        spacing *= L::LEVELS;
    }
}

// A and B from the readings, then two factors at a time while two are left, and the last by itself where k is odd.
fn in_pairs<L: Pass>(k: usize, readings: &[i32], column: &mut [i64])
    requires { SeveralFactors L.LEVELS k readings.now column.old }
    ensures { column.new ≡ totals_of (replicate k (of_levels L.LEVELS)) readings.now }
{
    let set = L::SET;
    put_first::<L>(readings, column);
    let mut spacing = set;
    for _pair in 1..k / 2 {
        both_over::<L>(spacing, column);
        spacing *= set;
    }
    if k % 2 == 1 {
        column_over::<L>(spacing, column);
    }
}

// Of runs that are made once.
fn once<L: Pass>(k: usize, readings: &[i32], column: &mut [i64])
    requires { PassReadings L.LEVELS k readings.now × (length column.old ≡ length readings.now) }
    ensures { column.new ≡ totals_of (replicate k (of_levels L.LEVELS)) readings.now }
{
    if k < 2 {
        copy(readings, column);
        all_passes::<L>(k, column);
    } else {
        in_pairs::<L>(k, readings, column);
    }
}

// The totals of readings that are not refused: those of the sums of runs.
fn totals<L: Pass>(k: usize, repeats: usize, readings: &[i32], column: &mut [i64])
    requires { RunReadings L.LEVELS k repeats readings.now column.old }
    ensures { column.new ≡ totals_of (replicate k (of_levels L.LEVELS)) (run_sums_in (length column.old) repeats readings.now) }
{
    if repeats == 1 {
        once::<L>(k, readings, column);
    } else {
        sum_runs(readings, repeats, column);
        all_passes::<L>(k, column);
    }
}

// The same, by the number of levels.
// (May not change: the promise takes the number of levels, and here it becomes a kind.)
pub fn form_totals(levels: usize, k: usize, repeats: usize, readings: &[i32], column: &mut [i64])
    requires { RunReadings levels k repeats readings.now column.old }
    ensures { column.new ≡ totals_of (replicate k (of_levels levels)) (run_sums_in (length column.old) repeats readings.now) }
{
    if levels == 2 {
        totals::<Two>(k, repeats, readings, column);
    } else {
        totals::<Three>(k, repeats, readings, column);
    }
}
