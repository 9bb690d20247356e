// Numbers of one, two and four bytes.
ghost use Rattle.std.specs.Prelude.{[], ◌∷◌, ◌≡◌, get_or};
ghost use Rattle.numerals.specs.Numbers.{big, twos};

// A byte of a body, and 0 beyond its end.
pub fn byte(body: &[u8], place: usize) -> u8
    ensures { result ≡ get_or body.now place 0 }
{
    body.get(place).copied().unwrap_or(0)
}

#[tactic(auto, unfolding(crate::specs::Numbers::big))]
pub fn pair(high: u8, low: u8) -> u16
    ensures { result ≡ big (high ∷ low ∷ []) }
{
    u16::from_be_bytes([high, low])
}

#[tactic(auto, unfolding(crate::specs::Numbers::big, crate::specs::Numbers::twos))]
pub fn reading(a: u8, b: u8, c: u8, d: u8) -> i32
    ensures { result ≡ twos 32 (big (a ∷ b ∷ c ∷ d ∷ [])) }
{
    i32::from_be_bytes([a, b, c, d])
}
