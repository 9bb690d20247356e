// The totals of a record.
use worked::number_in;

// The most totals that are lent, and the most readings.
pub const MOST: usize = 1100;

// The totals of a body, eight bytes each, after its first four bytes. Those that do not stand there are 0.
pub fn totals_in(body: &[u8]) -> [i64; MOST] {
    let mut totals = [0; MOST];
    let given = body.get(4..).unwrap_or(&[]);
    for (total, bytes) in totals.iter_mut().zip(given.chunks_exact(8)) {
        *total = number_in(bytes);
    }
    totals
}
