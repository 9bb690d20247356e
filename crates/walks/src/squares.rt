// Squares, and numerators of effects.
ghost use Rattle.std.specs.Prelude.{◌≡◌, ◌*◌, nat_abs};
ghost use Rattle.walks.specs.Ready.{Squarable};
ghost use Rattle.walks.specs.Inner.Ready.{Weighable};

pub fn square(x: i64) -> u64
    requires { Squarable x }
    ensures { result ≡ nat_abs x * nat_abs x }
{
    (x * x) as u64
}

// A total squared times its weight.
pub fn numerator(total: i64, weight: u32) -> u64
    requires { Weighable total weight }
    ensures { result ≡ nat_abs total * nat_abs total * weight }
{
    square(total) * (weight as u64)
}
