// The passes of two factors in one go over a whole column: it falls into consecutive stretches, and each stretch is worked by itself. A stretch is
// named by its places: of what is written through `chunks_exact_mut` nothing is known to a proof afterwards.
ghost use Rattle.std.specs.Prelude.{◌≡◌};
ghost use Rattle.contrasts.proofs.Laws.Both.{both_over, FirstStretches, BothStretches};

use super::level::Level;

// The first two factors, from the readings to a column: the copy and both passes in one go.
pub fn put_first<L: Level>(readings: &[i32], column: &mut [i64])
    requires { FirstStretches L.SET readings.now column.old }
    ensures { column.new ≡ both_over 1 L.factor readings.now }
{
    let set = L::SET;
    for start in (0..column.len()).step_by(set) {
        L::put_set(
            &readings[start..start + set],
            &mut column[start..start + set],
        );
    }
}

// All stretches of two factors that follow each other, in place. The values of the first factor lie the given distance apart.
#[inline(always)]
fn stretches_over<L: Level>(spacing: usize, column: &mut [i64])
    requires { BothStretches L.SET spacing column.old }
    ensures { column.new ≡ both_over spacing L.factor column.old }
{
    let width = L::SET * spacing;
    for start in (0..column.len()).step_by(width) {
        L::work_sets(&mut column[start..start + width], spacing);
    }
}

// Two factors that follow each other, in place. The shortest stretches, in which the values of the first lie a set apart, are a call by
// themselves, in which the spacing is a number: the compiler then knows that the places of a set do not overlap, and need not test it at each.
pub fn both_over<L: Level>(spacing: usize, column: &mut [i64])
    requires { BothStretches L.SET spacing column.old }
    ensures { column.new ≡ both_over spacing L.factor column.old }
{
    if spacing == L::SET {
        stretches_over::<L>(L::SET, column);
    } else {
        stretches_over::<L>(spacing, column);
    }
}
