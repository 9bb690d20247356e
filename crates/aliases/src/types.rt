// What the alias call answers.

// The base word that an effect reduces to, and whether the sign turns.
#[derive(Clone, Copy, PartialEq, Eq)]
pub struct Alias {
    pub word: u16,
    pub turned: bool,
}
