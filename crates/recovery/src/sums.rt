// The sums back of all runs: each total times its weight and its coefficient, added up, one factor after the other. At two levels these are
// passes once more; at three the rows (2, 3, 1), (2, 0, -2) and (2, -3, 1).
ghost use Rattle.std.specs.Prelude.{◌≡◌, replicate};
ghost use Rattle.contrasts.proofs.Factors.{three, of_levels};
ghost use Rattle.contrasts.specs.Totals.{denominator};
ghost use Rattle.contrasts.proofs.Laws.Undo.{sums_over, sums_from};
ghost use Rattle.passes.specs.Ready.{Stretch, Stretches};
ghost use Rattle.recovery.specs.Inner.Lent.{Summable};

use passes::pass_over;

// The triples of a stretch at three levels: first, middle and third become twice first plus three times middle plus third, twice first less twice
// third, and twice first less three times middle plus third.
fn sum_triples(part: &mut [i64], spacing: usize)
    requires { Stretch 3 spacing part.old }
    ensures { part.new ≡ sums_over spacing three part.old }
{
    for i in 0..spacing {
        let j = i + spacing;
        let k = i + 2 * spacing;
        let first = part[i];
        let middle = part[j];
        let third = part[k];
        part[i] = 2 * first + 3 * middle + third;
        part[j] = 2 * first - 2 * third;
        part[k] = 2 * first - 3 * middle + third;
    }
}

// A stretch at three levels. The shortest ones are calls by themselves, in which the spacing is a number, and are compiled without a loop.
fn sum_stretch(part: &mut [i64], spacing: usize)
    requires { Stretch 3 spacing part.old }
    ensures { part.new ≡ sums_over spacing three part.old }
{
    if spacing == 1 {
        sum_triples(part, 1);
    } else if spacing == 3 {
        sum_triples(part, 3);
    } else {
        sum_triples(part, spacing);
    }
}

// All stretches of a column at three levels, in which the values of the factor lie the given distance apart; each is named by its places, as in
// `passes`.
fn sums_three(spacing: usize, column: &mut [i64])
    requires { Stretches 3 spacing column.old }
    ensures { column.new ≡ sums_over spacing three column.old }
{
    let width = 3 * spacing;
    for start in (0..column.len()).step_by(width) {
        sum_stretch(&mut column[start..start + width], spacing);
    }
}

// The sums of one factor, by the number of levels.
// (A trait with the one method that differs, and `pass_over` as the other, is no plainer.)
fn sums_over(levels: usize, spacing: usize, column: &mut [i64])
    requires { Stretches levels spacing column.old }
    ensures { column.new ≡ sums_over spacing (of_levels levels) column.old }
{
    if levels == 2 {
        pass_over(2, spacing, column);
    } else {
        sums_three(spacing, column);
    }
}

// The common denominator of a factor's divisors.
fn common(levels: usize) -> u32
    ensures { result ≡ (of_levels levels).common }
{
    if levels == 2 { 2 } else { 6 }
}

// The sums of all k factors, the last one first. The answer is the denominator, over which they are to be taken.
pub fn sum_back(levels: usize, k: usize, column: &mut [i64]) -> u32
    requires { Summable levels k column.old }
    ensures value { result ≡ denominator (replicate k (of_levels levels)) }
    ensures column_after { column.new ≡ sums_from 1 (replicate k (of_levels levels)) column.old }
{
    let own = common(levels);
    let mut spacing = column.len();
    let mut denominator = 1;
    for _i in 0..k {
        spacing /= levels;
        sums_over(levels, spacing, column);
        denominator *= own;
    }
    denominator
}
