// An argument of the program: a whole number in decimal, or something else.
ghost use Rattle.std.specs.Prelude.{◌≡◌, ◌+◌, ◌*◌, ◌-◌, min, ◌≤◌};
ghost use Rattle.blockwords.specs.Arguments.{argument_of};

// A number with one digit more, and 255 where that is above it.
fn with_digit(n: u8, byte: u8) -> u8
    requires { 48 ≤ byte }
    ensures { result ≡ min 255 (n * 10 + (byte - 48)) }
{
    n.saturating_mul(10).saturating_add(byte - b'0')
}

// The number that the bytes of an argument are, however many there are: 255 where it is above that.
pub fn argument_of(bytes: &[u8]) -> Option<u8>
    ensures { result ≡ argument_of bytes.now }
{
    if bytes.is_empty() {
        return None;
    }
    let mut n = 0;
    for byte in bytes {
        if !byte.is_ascii_digit() {
            return None;
        }
        n = with_digit(n, *byte);
    }
    Some(n)
}
