// Aliases: what an effect of all factors of a two-level plan reduces to.
//
//   alias(p, effect)   the base word that the effect reduces to, and whether the sign turns
//   Alias              both
#![tactic(auto)]

mod effects;
mod types;

pub use effects::alias;
pub use types::Alias;
