// Printing of values and refusals.
ghost use Rattle.std.specs.Prelude.{◌≡◌, ◌++◌, List, ℕ, Some, OnOk};
ghost use Rattle.std.specs.Io.KnownBytes.{Appends};
ghost use Rattle.std.specs.Fmt.{decimal};
ghost use Rattle.plan.specs.Refusals.{number};
ghost use Rattle.worked.specs.Prints.{spaced, refusal_text};

use plan::Refusal;
use std::fmt::Display;
use std::io;
use std::io::Write;

// Each value after a space.
pub fn print_values<W: Write, T: Display + Copy>(out: &mut W, values: &[T]) -> io::Result<()>
    ensures { (show : T → List ℕ) → ((value : T) → T.output value ≡ Some (show value)) → OnOk result (Appends (W.contents out.old) (W.contents out.new) (spaced show values.now)) }
{
    for value in values {
        write!(out, " {value}")?;
    }
    Ok(())
}

// A refusal by its number.
pub fn print_refusal<W: Write>(out: &mut W, refusal: Refusal) -> io::Result<()>
    ensures { OnOk result (Appends (W.contents out.old) (W.contents out.new) (refusal_text refusal)) }
{
    let number = refusal.number();
    write!(out, " refused {number}")
}
