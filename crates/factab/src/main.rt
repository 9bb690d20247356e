// The program: it reads one sheet from standard input and writes the sheet's text, a table or the line of its refusal, to standard output.
// Where the input cannot be read it writes no text. That, and a text that cannot be written, it tells on standard error.
#![tactic(auto)]

ghost use Rattle.std.specs.Prelude.{◌≡◌, IfSome, IfErr, OnOk};
ghost use Rattle.std.specs.Io.KnownBytes.{Appends, Keeps};
ghost use Rattle.printing.specs.Printed.{text_of};

use input::{Failure, Printer};
use printing::{INPUT, TEXT, print_input};
use std::io::{Read, Write};

// The text of a sheet that factab prints.
struct Tables;

impl Printer for Tables {
    ghost text_of = { text_of };

    fn print(&self, input: &[u8; INPUT], count: usize, text: &mut [u8; TEXT]) -> usize {
        print_input(input, count, text)
    }
}

// Reads a sheet, which is the whole input, and writes its text. Where a read fails it writes nothing.
fn print_read<R: Read, W: Write>(reader: &mut R, out: &mut W) -> Result<(), Failure>
    ensures text { OnOk result (IfSome (R.remaining reader.old) (λ sheet. Appends (W.contents out.old) (W.contents out.new) (text_of sheet))) }
    ensures unread { IfErr result (λ why. why ≡ Failure.Read → Keeps (W.contents out.old) (W.contents out.new)) }
{
    input::print_read(&Tables, reader, out)
}

// (Each program says its own name.)
fn main(rt: HostRuntime) {
    if let Err(failure) = print_read(&mut rt.stdin(), &mut rt.stdout()) {
        let _ = eprintln!(rt; "factab: {failure}");
    }
}
