// What the table call gives.

// A line of the analysis of variance: how many degrees it has, and its numerator over the table's denominator.
#[derive(Clone, Copy)]
pub struct Source {
    pub degrees: u64,
    pub numerator: u64,
}

// Both check numbers: the sum of the totals, and what it must be by the run sums of the readings.
#[derive(Clone, Copy)]
pub struct Checks {
    pub totals: i64,
    pub readings: i64,
}

// The figures of a table.
#[derive(Clone, Copy)]
pub struct Figures {
    pub denominator: u64,
    pub mean: Source,
    pub kept: Source,
    pub blocks: Source,
    pub error: Source,
    pub total: Source,
    pub checks: Checks,
}
