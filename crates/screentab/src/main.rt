// The program for papers on main effects alone: it reads one sheet from standard input and writes to standard output what `factab` does, but the
// line of the refusal where the screening call refuses the sheet. Where the input cannot be read it writes no text. That, and a text that cannot
// be written, it tells on standard error.
#![tactic(auto)]

mod texts;

ghost use Rattle.std.specs.Prelude.{◌≡◌, IfSome, IfErr, OnOk};
ghost use Rattle.std.specs.Io.KnownBytes.{Appends, Keeps};
ghost use Rattle.screentab.specs.Screened.{screened_text};

use input::{Failure, Printer};
use printing::{INPUT, TEXT};
use std::io::{Read, Write};
use texts::screened_input;

// The text of a sheet that screentab prints.
struct Screened;

impl Printer for Screened {
    ghost text_of = { screened_text };

    fn print(&self, input: &[u8; INPUT], count: usize, text: &mut [u8; TEXT]) -> usize {
        screened_input(input, count, text)
    }
}

// Reads a sheet, which is the whole input, and writes its text. Where a read fails it writes nothing.
fn print_read<R: Read, W: Write>(reader: &mut R, out: &mut W) -> Result<(), Failure>
    ensures text { OnOk result (IfSome (R.remaining reader.old) (λ sheet. Appends (W.contents out.old) (W.contents out.new) (screened_text sheet))) }
    ensures unread { IfErr result (λ why. why ≡ Failure.Read → Keeps (W.contents out.old) (W.contents out.new)) }
{
    input::print_read(&Screened, reader, out)
}

// (Each program says its own name.)
fn main(rt: HostRuntime) {
    if let Err(failure) = print_read(&mut rt.stdin(), &mut rt.stdout()) {
        let _ = eprintln!(rt; "screentab: {failure}");
    }
}
