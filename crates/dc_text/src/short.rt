// Few bytes, kept in place.
ghost use Rattle.std.specs.Prelude.{◌≡◌, ◌+◌, ◌<◌, ◌≤◌, ◌++◌, [], length, map, true, MatchOption, slice_set};
ghost use Rattle.dc_text.specs.Bytes.{lower as lower_of};

use std::marker::Model;

/// How many bytes are kept in place.
const ROOM: usize = 30;

/// At most 30 bytes, which take no memory of their own.
#[derive(Drop)]
pub(crate) struct Short {
    count: u8,
    bytes: [u8; ROOM],
}

impl Model for Short {
    ghost use Rattle.std.specs.Prelude.{◌≡◌, ◌≤◌, List, ℕ, length, take};

    ghost Value = { List ℕ };

    ghost view = { λ s. take s.count s.bytes };

    ghost invariant = { λ s. s.count ≤ 30 };
}

impl Short {
    /// No bytes.
    pub(crate) fn new() -> Self
        ensures { result ≡ [] }
    {
        Short {
            count: 0,
            bytes: [0; ROOM],
        }
    }

    /// These bytes, unless they are too many.
    pub(crate) fn from_bytes(bytes: &[u8]) -> Option<Self>
        ensures { MatchOption result (30 < length bytes.now) (λ short. short ≡ bytes.now) }
    {
        if ROOM < bytes.len() {
            return None;
        }
        let mut short = Short::new();
        short.append(bytes);
        Some(short)
    }

    pub(crate) fn bytes(&self) -> &[u8]
        ensures { result.now ≡ self.now }
    {
        &self.bytes[..self.count as usize]
    }

    /// Whether so many more bytes are kept in place too.
    pub(crate) fn has_room(&self, more: usize) -> bool
        ensures { result ≡ true → length self.now + more ≤ 30 }
    {
        more <= ROOM - self.count as usize
    }

    pub(crate) fn append(&mut self, bytes: &[u8])
        requires { length self.old + length bytes.now ≤ 30 }
        ensures { self.new ≡ self.old ++ bytes.now }
    {
        let start = self.count as usize;
        let end = start + bytes.len();
        self.bytes[start..end].copy_from_slice(bytes);
        self.count = end as u8;
    }

    /// Writes the byte at the place.
    pub(crate) fn set(&mut self, place: usize, byte: u8)
        requires { place < length self.old }
        ensures { self.new ≡ slice_set self.old place byte }
    {
        self.bytes[place] = byte;
    }

    /// Puts upper-case letters into lower case.
    pub(crate) fn lower(&mut self)
        ensures { self.new ≡ map lower_of self.old }
    {
        self.bytes.make_ascii_lowercase();
    }

    pub(crate) fn copy(&self) -> Self
        ensures { result ≡ self.now }
    {
        Short {
            count: self.count,
            bytes: self.bytes,
        }
    }
}
