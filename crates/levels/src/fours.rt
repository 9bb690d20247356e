// Two levels: four values belong together.
ghost use Rattle.std.specs.Prelude.{refl};
ghost use Rattle.std.proofs.Common.{inl};
ghost use Rattle.contrasts.proofs.Factors.{two};
ghost use Rattle.contrasts.proofs.Laws.Levels.{kind-of};

use super::level::Level;
use super::pairs::{put_rows, rows_from, rows_of};

// The kind of two-level factors.
pub struct Two;

impl Level for Two {
    ghost factor = { two };

    ghost LEVELS = { 2 };

    ghost SET = { 4 };

    const LEVELS: usize = 2;

    const SET: usize = 4;

    fn put_set(readings: &[i32], part: &mut [i64]) {
        let low = rows_from(readings, 0);
        let high = rows_from(readings, 2);
        put_rows(part, 0, 1, low, high);
    }

    // The rows of each two values, and then the rows of these. The four places stand here as they are, and not in a function that reads two: the
    // compiler then sees that those of the shortest stretches do not overlap.
    fn work_sets(part: &mut [i64], spacing: usize) {
        for i in 0..spacing {
            let low = rows_of(part[i], part[i + spacing]);
            let high = rows_of(part[i + 2 * spacing], part[i + 3 * spacing]);
            put_rows(part, i, spacing, low, high);
        }
    }

    ghost kind = { refl };

    ghost own = { kind-of 2 (inl refl) };

    ghost square = { refl };
}
