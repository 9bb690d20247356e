// The two rows of two values: of one pair at the first pass, and of two of these at the second.
ghost use Rattle.std.specs.Prelude.{◌≡◌};
ghost use Rattle.contrasts.proofs.Laws.Small.{Mild};
ghost use Rattle.levels.specs.Inner.Pairs.{rows_by, rows_from, put_rows, TwoReadings, FourPlaces};

// The sum, and first minus second.
#[derive(Clone, Copy)]
pub struct Rows {
    pub sum: i64,
    pub gap: i64,
}

pub fn rows_of(first: i64, second: i64) -> Rows
    requires { Mild first × Mild second }
    ensures { result ≡ rows_by first second }
{
    Rows {
        sum: first + second,
        gap: first - second,
    }
}

// The rows of two readings, from the place i on.
pub fn rows_from(readings: &[i32], i: usize) -> Rows
    requires { TwoReadings readings.now i }
    ensures { result ≡ rows_from readings.now i }
{
    rows_of(readings[i] as i64, readings[i + 1] as i64)
}

// The rows of the sums of two pairs, and of their gaps, to four places that lie the spacing apart.
pub fn put_rows(part: &mut [i64], i: usize, spacing: usize, low: Rows, high: Rows)
    requires { FourPlaces part.old i spacing low high }
    ensures { part.new ≡ put_rows part.old i spacing low high }
{
    let sums = rows_of(low.sum, high.sum);
    let gaps = rows_of(low.gap, high.gap);
    let v0 = sums.sum;
    let v1 = gaps.sum;
    let v2 = sums.gap;
    let v3 = gaps.gap;
    part[i] = v0;
    part[i + spacing] = v1;
    part[i + 2 * spacing] = v2;
    part[i + 3 * spacing] = v3;
}
