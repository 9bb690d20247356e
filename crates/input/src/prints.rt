// What a program prints of its input.
ghost use Rattle.std.specs.Prelude.{◌≡◌, ◌++◌, List, ℕ, length, take, drop, IfSome, IfErr, OnOk};
ghost use Rattle.std.specs.Io.KnownBytes.{Appends, Keeps};
ghost use Rattle.printing.specs.Input.{Holds, DecidesFor};

use super::failures::Failure;
use super::reads::read_input;
use printing::{INPUT, TEXT};
use std::io::{Read, Write};

// The text that a program has for a sheet.
pub trait Printer {
    ghost text_of: { List ℕ → List ℕ };

    // The text of an input of which the buffer's first `count` bytes were read, and how many bytes it has.
    fn print(&self, input: &[u8; INPUT], count: usize, text: &mut [u8; TEXT]) -> usize
        ensures value { result ≡ length (text_of (take count input.now)) }
        ensures text_after { text.new ≡ text_of (take count input.now) ++ drop result text.old }
        ensures decides_for { DecidesFor text_of input.now count };
}

// Writes the text of a sheet of which the first `count` bytes of the buffer are as much as there is room for.
pub fn print_text<P: Printer, W: Write>(
    printer: &P,
    out: &mut W,
    input: &[u8; INPUT],
    count: usize,
) -> Result<(), Failure>
    ensures text { (sheet : List ℕ) → Holds sheet input.now count → OnOk result (Appends (W.contents out.old) (W.contents out.new) (P.text_of sheet)) }
    ensures failure { IfErr result (λ why. why ≡ Failure.Write) }
{
    let mut text = [0u8; TEXT];
    let n = printer.print(input, count, &mut text);
    out.write_all(&text[..n]).map_err(|_| Failure::Write)
}

// Reads a sheet, which is the whole input, and writes its text. Where a read fails it writes nothing.
pub fn print_read<P: Printer, R: Read, W: Write>(
    printer: &P,
    reader: &mut R,
    out: &mut W,
) -> Result<(), Failure>
    ensures text { OnOk result (IfSome (R.remaining reader.old) (λ sheet. Appends (W.contents out.old) (W.contents out.new) (P.text_of sheet))) }
    ensures unread { IfErr result (λ why. why ≡ Failure.Read → Keeps (W.contents out.old) (W.contents out.new)) }
{
    let mut buffer = [0u8; INPUT];
    let n = read_input(reader, &mut buffer).map_err(|_| Failure::Read)?;
    print_text(printer, out, &buffer, n)
}
