// Numbers of eight bytes.
ghost use Rattle.std.specs.Prelude.{◌≡◌};
ghost use Rattle.worked.specs.Numbers.{number_of_bytes};

// The number of the last eight bytes, the highest first, in two's complement; where there are fewer, those before them are 0.
#[tactic(auto, unfolding(crate::specs::Numbers::number_of_bytes))]
pub fn number_in(bytes: &[u8]) -> i64
    ensures { result ≡ number_of_bytes bytes.now }
{
    let bits = bytes.iter().fold(
        0u64,
        |bits, byte| bits.wrapping_mul(256).wrapping_add(*byte as u64),
    );
    bits.cast_signed()
}
