// Three levels: nine values belong together.
ghost use Rattle.std.specs.Prelude.{refl};
ghost use Rattle.std.proofs.Common.{inr};
ghost use Rattle.contrasts.proofs.Factors.{three};
ghost use Rattle.contrasts.proofs.Laws.Levels.{kind-of};

use super::level::Level;
use super::triples::{put_rows, rows_from, rows_of};

// The kind of three-level factors.
pub struct Three;

impl Level for Three {
    ghost factor = { three };

    ghost LEVELS = { 3 };

    ghost SET = { 9 };

    const LEVELS: usize = 3;

    const SET: usize = 9;

    fn put_set(readings: &[i32], part: &mut [i64]) {
        let low = rows_from(readings, 0);
        let middle = rows_from(readings, 3);
        let high = rows_from(readings, 6);
        put_rows(part, 0, 1, low, middle, high);
    }

    // The rows of each three values, and then the rows of these. The nine places stand here as they are, and not in a function that reads three:
    // the compiler then sees that those of the shortest stretches do not overlap.
    fn work_sets(part: &mut [i64], spacing: usize) {
        for i in 0..spacing {
            let low = rows_of(part[i], part[i + spacing], part[i + 2 * spacing]);
            let middle = rows_of(
                part[i + 3 * spacing],
                part[i + 4 * spacing],
                part[i + 5 * spacing],
            );
            let high = rows_of(
                part[i + 6 * spacing],
                part[i + 7 * spacing],
                part[i + 8 * spacing],
            );
            put_rows(part, i, spacing, low, middle, high);
        }
    }

    ghost kind = { refl };

    ghost own = { kind-of 3 (inr refl) };

    ghost square = { refl };
}
