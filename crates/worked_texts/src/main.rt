// Makes the texts of many sheets, which are the records of its input. `reference/cases/text_cases.py` makes the input and the text that this
// program must write, and says how both are laid out.
#![tactic(auto)]

use printing::{TEXT, print_sheet};
use std::io;
use std::io::Write;
use worked::{MOST_RECORD, read_record};

// The loop has to end and the input need not, so the turns are counted up to a number that no input comes to.
fn main(rt: HostRuntime) -> io::Result<()> {
    let mut out = rt.stdout();
    let mut from = rt.stdin();
    let mut space = [0; MOST_RECORD];
    let mut text = [0; TEXT];
    for _ in 0..u64::MAX {
        let Some(sheet) = read_record(&mut from, &mut space)? else {
            break;
        };
        let n = print_sheet(sheet, &mut text);
        out.write_all(&text[..n])?;
    }
    Ok(())
}
