// Readings as the values of a column, and the values of one column to another.
ghost use Rattle.std.specs.Prelude.{◌≡◌, length};
ghost use Rattle.columns.specs.Copies.{copied};

#[tactic(auto, using(std::proofs::lemmas::List::take_more, std::proofs::lemmas::List::take_more_set))]
fn put_readings(readings: &[i32], column: &mut [i64])
    requires { length readings.now ≡ length column.old }
    ensures { column.new ≡ readings.now }
{
    for (i, reading) in readings.iter().enumerate() {
        column[i] = i64::from(*reading);
    }
}

// The readings are copied to a column of as many places; a column of another length stays as it was.
#[tactic(auto, unfolding(crate::specs::Copies::copied))]
pub fn copy(readings: &[i32], column: &mut [i64])
    ensures { column.new ≡ copied readings.now column.old }
{
    if readings.len() == column.len() {
        put_readings(readings, column);
    }
}

// The values of a column are copied to another of as many places; one of another length stays as it was.
#[tactic(auto, unfolding(crate::specs::Copies::copied))]
pub fn copy_values(from: &[i64], to: &mut [i64])
    ensures { to.new ≡ copied from.now to.old }
{
    if from.len() == to.len() {
        to.copy_from_slice(from);
    }
}
