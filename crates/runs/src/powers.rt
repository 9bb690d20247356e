// Sets of small numbers as the bits of a word.
ghost use Rattle.std.specs.Prelude.{◌≡◌, cond, ◌+◌, ◌^◌, ◌<◌};

// 2 to the power n.
pub fn power(n: usize) -> u16
    requires { n < 16 }
    ensures { result ≡ 2 ^ n }
{
    1u16 << n
}

// The set with the number n put in where the test holds; all its numbers are below n.
pub fn put_if(test: bool, set: u16, n: usize) -> u16
    requires { (n < 16) × (set < 2 ^ n) }
    ensures { result ≡ set + cond test (2 ^ n) 0 }
{
    if test { set + power(n) } else { set }
}
