// The rows of the table: how many there are, what marks they may have, and whether a row is mean, kept, blocks or error.
//
//   row_count(p)            how many rows there are
//   is_marked(marks, row)   whether a row has mark 1
//   bad_marks(p, marks)     whether refusal 13 applies
//   kinds(p, marks)         the kind of each row
//   Kind                    kept, error, mean or blocks
#![tactic(auto)]

mod counts;
mod kind;
mod kinds_of_rows;
mod marks;

pub use counts::row_count;
pub use kind::Kind;
pub use kinds_of_rows::kinds;
pub use marks::{bad_marks, is_marked};
