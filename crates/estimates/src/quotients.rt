// A total over a power of two, as a double.
ghost use Rattle.std.specs.Prelude.{◌≡◌};
ghost use Rattle.estimates.specs.Quotient.{quotient, InDouble};

// The total over 2 to the power j. Nothing is rounded.
pub fn scaled(total: i64, j: usize) -> f64
    requires { InDouble total j }
    ensures { result ≡ quotient total j }
{
    (total as f64) / ((1u64 << j) as f64)
}
