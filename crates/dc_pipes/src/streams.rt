// Reads and writes of the host.
ghost use Rattle.std.specs.Prelude.{◌≤◌, length, IfOk, MatchResult};
ghost use Rattle.std.specs.Io.KnownBytes.{ReadConsumes, Keeps};
ghost use Rattle.dc_pipes.specs.Streams.{WritesAll, IsWritten};

use std::io::{Error, ErrorKind, Read, Result, Write};

/// Reads once, and again where a signal interrupted it.
pub fn read_some<R: Read>(input: &mut R, buf: &mut [u8]) -> Result<usize>
    ensures bound { IfOk result (λ count. count ≤ length buf.new) }
    ensures bytes { ReadConsumes (R.remaining input.old) (R.remaining input.new) result buf.new }
{
    for _ in 0..u64::MAX {
        match input.read(buf) {
            Err(error) if error.kind() == ErrorKind::Interrupted => {}
            answer => return answer,
        }
    }
    Err(Error::from(ErrorKind::Interrupted))
}

/// Writes all the bytes, and leaves none of them in a buffer. After a failure a front of them was written.
pub fn write_all<W: Write>(output: &mut W, bytes: &[u8]) -> Result<()>
    ensures { WritesAll (W.contents output.old) (W.contents output.new) result bytes.now }
{
    let mut rest = bytes;
    for _ in 0..u64::MAX {
        if rest.is_empty() {
            return output.flush();
        }
        rest = write_some(output, rest)?;
    }
    Err(Error::from(ErrorKind::Interrupted))
}

// Writes a front of the bytes, and answers the rest. Where a signal interrupted the write, that is all of them.
fn write_some<'a, W: Write>(output: &mut W, bytes: &'a [u8]) -> Result<&'a [u8]>
    ensures { MatchResult result (λ rest. IsWritten (W.contents output.old) (W.contents output.new) bytes.now rest.now)
        (λ _. Keeps (W.contents output.old) (W.contents output.new)) }
{
    match output.write(bytes) {
        Ok(count) if count == 0 => Err(Error::from(ErrorKind::WriteZero)),
        Ok(count) => Ok(&bytes[count..]),
        Err(error) if error.kind() == ErrorKind::Interrupted => Ok(bytes),
        Err(error) => Err(error),
    }
}
