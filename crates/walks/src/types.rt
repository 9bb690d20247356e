// What the walk answers.

// Numerators and degrees of the four kinds of rows, by the kind's number, and the sum of the totals. (Two arrays, and none of pairs, since `sums_by` and
// `source_in` of the claim `OneWalk` read these fields.)
#[derive(Clone, Copy)]
pub struct Sums {
    pub numerators: [u64; 4],
    pub degrees: [u64; 4],
    pub totals: i64,
}
