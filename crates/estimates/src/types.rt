// What the estimate call answers.

// The mean or a difference as a double, or lost to blocks with no number.
#[derive(Clone, Copy)]
pub enum Estimate {
    Mean(f64),
    Difference(f64),
    Lost,
}
