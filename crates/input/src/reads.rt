// Reads of a program's input.
ghost use Rattle.std.specs.Prelude.{length};
ghost use Rattle.input.specs.Came.{FullOrEnded, CameFrom};

use std::io;
use std::io::Read;

// Reads until the buffer is full or the input ends, and answers how many bytes of it are at the buffer's start. One read may bring a part only.
// (How many reads that takes is not known before, so no `for` fits.)
pub fn read_input<R: Read>(reader: &mut R, buffer: &mut [u8]) -> io::Result<usize>
    ensures room { FullOrEnded (R.remaining reader.new) result (length buffer.new) }
    ensures bytes { CameFrom (R.remaining reader.old) (R.remaining reader.new) result buffer.new }
{
    let mut n = 0;
    while n < buffer.len() {
        let more = reader.read(&mut buffer[n..])?;
        if more == 0 {
            return Ok(n);
        }
        n += more;
    }
    Ok(n)
}
