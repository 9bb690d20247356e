// What the run call answers.

// The letters that are high in a run, as a set, and the number of its block.
#[derive(Clone, Copy, PartialEq, Eq)]
pub struct Run {
    pub high: u16,
    pub block: u8,
}
