// The records of a database text.
ghost use Rattle.std.specs.Prelude.{◌≡◌, ◌==◌, IfOk, MatchResult, if◌then◌else◌, nat_le};
ghost use Rattle.std.specs.List.{position_or_len};
ghost use Rattle.dc_text.specs.Ascii.{backslash};
ghost use Rattle.dc_text.specs.Lines.{lines_of};
ghost use Rattle.dc_item.specs.Records.{IsAnswer};
ghost use Rattle.dc_item.specs.Reader.{read_all, Fails, IsReading};

use crate::reader::Reader;
use crate::records_read::Records;
use dc_text::OutOfMemory;
use dc_text::bytes::{place_of, split_line};
use std::alloc::Global;
use thiserror::Error;

/// Why a text has no records.
#[derive(Debug, Drop, Error)]
pub enum RecordError {
    /// The first line, from 1, that has no reading where it stands.
    #[error("a bad line")]
    Bad { line: u64 },
    #[error("out of memory")]
    OutOfMemory,
}

impl From<OutOfMemory> for RecordError {
    ghost use Rattle.std.specs.Prelude.{◌≡◌};
    ghost use Rattle.dc_item.specs.declared.records.RecordError.TheVariants.{OutOfMemory};

    ghost from_gives = { λ _ e. e ≡ OutOfMemory };

    fn from(_: OutOfMemory) -> Self {
        RecordError::OutOfMemory
    }
}

/// The records of a database text. `Bad` names the first line that has no reading where it stands.
pub fn read_records(alloc: Global, bytes: &[u8]) -> Result<Records, RecordError>
    ensures { IsAnswer bytes.now result }
{
    let mut reader = read_lines(alloc, bytes)?;
    reader.close()?;
    let Reader { done, current: _ } = reader;
    Ok(done)
}

fn read_lines(alloc: Global, bytes: &[u8]) -> Result<Reader, RecordError>
    ensures read { MatchResult result (λ reader. read_all (lines_of bytes.now) ≡ Ok reader) (λ error. Fails error (read_all (lines_of bytes.now))) }
    ensures is_reading { IfOk result IsReading }
{
    let mut reader = Reader::new(alloc);
    let mut rest = bytes;
    let mut line = 0u64;
    let mut plain = 0;
    while !rest.is_empty() {
        let (text, after) = split_line(rest);
        line += 1;
        plain = plain_front(rest, plain, text.len());
        if !reader.take(alloc, line, text, text.len() <= plain)? {
            return Err(RecordError::Bad { line });
        }
        plain = plain.saturating_sub(text.len() + 1);
        rest = after;
    }
    Ok(reader)
}

// How many bytes at the front have no backslash: as many as are known, where that reaches as far as is wanted, else all before
// the first.
fn plain_front(bytes: &[u8], known: usize, wanted: usize) -> usize
    ensures { result ≡ (if nat_le wanted known then known else position_or_len (λ byte. byte == backslash) bytes.now) }
{
    if wanted <= known {
        known
    } else {
        place_of(bytes, b'\\').unwrap_or(bytes.len())
    }
}
