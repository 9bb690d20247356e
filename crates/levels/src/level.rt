// What a kind of factors is.
ghost use Rattle.std.specs.Prelude.{◌≡◌, ℕ, ◌*◌};
ghost use Rattle.contrasts.specs.Factor.{Factor};
ghost use Rattle.contrasts.proofs.Factors.{of_levels};
ghost use Rattle.contrasts.proofs.Laws.Both.{both_over, FirstStretch, BothStretch};

// Two factors of the kind are worked in one go set by set: a set is as many values as the square of the levels. The rows of two values and of three
// have other terms, so each kind works its sets itself (`pairs`, `triples`); what goes over a column is written once (`walks`).
pub trait Level {
    ghost factor: { Factor };

    ghost LEVELS: { ℕ };

    ghost SET: { ℕ };

    const LEVELS: usize;

    const SET: usize;

    // Both passes of the readings of one set, to the same stretch of a column.
    fn put_set(readings: &[i32], part: &mut [i64])
        requires { FirstStretch SET readings.now part.old }
        ensures { part.new ≡ both_over 1 factor readings.now };

    // Both passes of a stretch: its sets, as many as the values of the first factor lie apart.
    fn work_sets(part: &mut [i64], spacing: usize)
        requires { BothStretch SET spacing part.old }
        ensures { part.new ≡ both_over spacing factor part.old };

    ghost kind: { of_levels LEVELS ≡ factor };

    ghost own: { factor.levels ≡ LEVELS };

    ghost square: { SET ≡ LEVELS * LEVELS };
}
