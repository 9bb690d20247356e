// The three rows of three values: of one set of three at the first pass, and of three of these at the second.
ghost use Rattle.std.specs.Prelude.{◌≡◌};
ghost use Rattle.contrasts.proofs.Laws.Small.{Mild};
ghost use Rattle.levels.specs.Inner.Triples.{rows_by, rows_from, put_rows, ThreeReadings, NinePlaces};

// The sum, first minus third, and first minus twice middle plus third.
#[derive(Clone, Copy)]
pub struct Rows {
    pub sum: i64,
    pub gap: i64,
    pub curve: i64,
}

pub fn rows_of(first: i64, middle: i64, third: i64) -> Rows
    requires { Mild first × Mild middle × Mild third }
    ensures { result ≡ rows_by first middle third }
{
    Rows {
        sum: first + middle + third,
        gap: first - third,
        curve: first - 2 * middle + third,
    }
}

// The rows of three readings, from the place i on.
pub fn rows_from(readings: &[i32], i: usize) -> Rows
    requires { ThreeReadings readings.now i }
    ensures { result ≡ rows_from readings.now i }
{
    rows_of(
        readings[i] as i64,
        readings[i + 1] as i64,
        readings[i + 2] as i64,
    )
}

// The rows of the sums of three sets, of their gaps and of their curves, to nine places that lie the spacing apart.
pub fn put_rows(part: &mut [i64], i: usize, spacing: usize, low: Rows, middle: Rows, high: Rows)
    requires { NinePlaces part.old i spacing low middle high }
    ensures { part.new ≡ put_rows part.old i spacing low middle high }
{
    let sums = rows_of(low.sum, middle.sum, high.sum);
    let gaps = rows_of(low.gap, middle.gap, high.gap);
    let curves = rows_of(low.curve, middle.curve, high.curve);
    let v0 = sums.sum;
    let v1 = gaps.sum;
    let v2 = curves.sum;
    let v3 = sums.gap;
    let v4 = gaps.gap;
    let v5 = curves.gap;
    let v6 = sums.curve;
    let v7 = gaps.curve;
    let v8 = curves.curve;
    part[i] = v0;
    part[i + spacing] = v1;
    part[i + 2 * spacing] = v2;
    part[i + 3 * spacing] = v3;
    part[i + 4 * spacing] = v4;
    part[i + 5 * spacing] = v5;
    part[i + 6 * spacing] = v6;
    part[i + 7 * spacing] = v7;
    part[i + 8 * spacing] = v8;
}
