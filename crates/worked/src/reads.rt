// Reads of records.
ghost use Rattle.std.specs.Prelude.{◌≡◌, true, IfOk, IfSome};
ghost use Rattle.std.specs.Io.KnownBytes.{Consumes};
ghost use Rattle.worked.specs.Records.{ComesFirst};

use std::io;
use std::io::{ErrorKind, Read};

// The most bytes of a record: its length is two bytes.
pub const MOST_RECORD: usize = 65536;

// Fills the buffer, and answers whether the input had so many bytes.
pub fn read_whole<R: Read>(reader: &mut R, buffer: &mut [u8]) -> io::Result<bool>
    ensures { IfOk result (λ whole. whole ≡ true → Consumes (R.remaining reader.old) (R.remaining reader.new) buffer.new) }
{
    match reader.read_exact(buffer) {
        Ok(()) => Ok(true),
        Err(error) if error.kind() == ErrorKind::UnexpectedEof => Ok(false),
        Err(error) => Err(error),
    }
}

// Reads a record, which is its length, two bytes, and so many bytes; nothing where the input ends before.
pub fn read_record<'a, R: Read>(
    reader: &mut R,
    space: &'a mut [u8; MOST_RECORD],
) -> io::Result<Option<&'a [u8]>>
    ensures { IfOk result (λ found. IfSome found (λ body. ComesFirst (R.remaining reader.old) (R.remaining reader.new) body.now)) }
{
    let mut head = [0; 2];
    if !read_whole(reader, &mut head)? {
        return Ok(None);
    }
    let length = u16::from_be_bytes(head) as usize;
    let record = &mut space[..length];
    if !read_whole(reader, record)? {
        return Ok(None);
    }
    Ok(Some(record))
}
