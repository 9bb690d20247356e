// The kinds of rows.

// What a row of the table is. The numbers are the places of the kinds' sums; those of kept and error are the marks.
#[derive(Clone, Copy, PartialEq, Eq)]
pub enum Kind {
    Kept = 0,
    Error = 1,
    Mean = 2,
    Blocks = 3,
}
