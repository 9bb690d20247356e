// Why there is no text, or not all of it.
use std::fmt;

#[derive(Clone, Copy)]
pub enum Failure {
    Read,
    Write,
}

impl fmt::Display for Failure {
    fn fmt<W: fmt::Write>(&self, f: &mut fmt::Formatter<W>) -> fmt::Result {
        match self {
            Failure::Read => f.write_str("the input cannot be read"),
            Failure::Write => f.write_str("the text cannot be written"),
        }
    }
}
