// The pass of a factor over a column: the column falls into consecutive stretches, and each stretch is worked by itself. A stretch is named by its
// places: of what is written through `chunks_exact_mut` nothing is known to a proof afterwards.
ghost use Rattle.std.specs.Prelude.{◌≡◌};
ghost use Rattle.contrasts.proofs.Factors.{of_levels};
ghost use Rattle.contrasts.proofs.Laws.Stretches.{pass_over};
ghost use Rattle.passes.specs.Ready.{Stretch, Stretches};

use levels::{Level, Three, Two};

// How a kind of factors passes the sets of a stretch; the values of a set lie the spacing apart.
pub trait Pass: Level {
    fn pass_sets(part: &mut [i64], spacing: usize)
        requires { Stretch Self.LEVELS spacing part.old }
        ensures { part.new ≡ pass_over spacing (of_levels Self.LEVELS) part.old };
}

impl Pass for Two {
    // First and second become their sum, and first minus second.
    fn pass_sets(part: &mut [i64], spacing: usize) {
        for i in 0..spacing {
            let j = i + spacing;
            let first = part[i];
            let second = part[j];
            part[i] = first + second;
            part[j] = first - second;
        }
    }
}

impl Pass for Three {
    // First, middle and third become their sum, first minus third, and first minus twice middle plus third.
    fn pass_sets(part: &mut [i64], spacing: usize) {
        for i in 0..spacing {
            let j = i + spacing;
            let k = i + 2 * spacing;
            let first = part[i];
            let middle = part[j];
            let third = part[k];
            part[i] = first + middle + third;
            part[j] = first - third;
            part[k] = first - 2 * middle + third;
        }
    }
}

// All stretches of a column. The choice of the shortest is made before this loop: made in it, the passes at two levels took a tenth longer.
#[inline(always)]
fn stretches_over<L: Pass>(spacing: usize, column: &mut [i64])
    requires { Stretches L.LEVELS spacing column.old }
    ensures { column.new ≡ pass_over spacing (of_levels L.LEVELS) column.old }
{
    let width = L::LEVELS * spacing;
    for start in (0..column.len()).step_by(width) {
        L::pass_sets(&mut column[start..start + width], spacing);
    }
}

// The pass over a whole column, of a factor whose values lie the given distance apart. The columns of the shortest stretches are calls by
// themselves, in which the spacing is a number: such a stretch is compiled without a loop.
pub fn column_over<L: Pass>(spacing: usize, column: &mut [i64])
    requires { Stretches L.LEVELS spacing column.old }
    ensures { column.new ≡ pass_over spacing (of_levels L.LEVELS) column.old }
{
    if spacing == 1 {
        stretches_over::<L>(1, column);
    } else if spacing == L::LEVELS {
        stretches_over::<L>(L::LEVELS, column);
    } else {
        stretches_over::<L>(spacing, column);
    }
}

// The same, by the number of levels.
// (May not change: the promise takes the number of levels, and here it becomes a kind.)
pub fn pass_over(levels: usize, spacing: usize, column: &mut [i64])
    requires { Stretches levels spacing column.old }
    ensures { column.new ≡ pass_over spacing (of_levels levels) column.old }
{
    if levels == 2 {
        column_over::<Two>(spacing, column);
    } else {
        column_over::<Three>(spacing, column);
    }
}
