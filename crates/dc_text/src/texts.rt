// Bytes that grow, seen as their list.
ghost use Rattle.std.specs.Prelude.{◌≡◌, ◌∷◌, ◌++◌, ◌<◌, [], length, map, slice_set, OnOk, OnErr, IfOk};
ghost use Rattle.dc_text.specs.Bytes.{capital, lower};
ghost use Rattle.dc_text.specs.Texts.{bytes_in};

use crate::bytes::upper;
use crate::lists::Copied;
use crate::memory::Mem;
use crate::short::Short;
use std::alloc::Global;
use std::marker::Model;

// Where the bytes are: few of them, as most names and values have, in place.
enum Kept {
    InPlace(Short),
    InVector(Vec<u8>),
}

// Written out, so that to let a text go is one step in what is proved of its users.
impl Drop for Kept {
    fn drop(self) {
        match self {
            Kept::InPlace(_) => {}
            Kept::InVector(_) => {}
        }
    }
}

impl Kept {
    // The bytes as a vector.
    fn into_vec(self, alloc: Global) -> Mem<Vec<u8>>
        ensures { IfOk result (λ bytes. bytes.items ≡ bytes_in self) }
    {
        match self {
            Kept::InPlace(short) => Ok(short.bytes().to_vec(alloc)?),
            Kept::InVector(bytes) => Ok(bytes),
        }
    }
}

/// Bytes, which need not be UTF-8. At most 30 of them take no memory.
#[derive(Drop)]
pub struct Text {
    alloc: Global,
    kept: Kept,
}

impl Model for Text {
    ghost use Rattle.std.specs.Prelude.{List, ℕ};
    ghost use Rattle.dc_text.specs.Texts.{bytes_in};

    ghost Value = { List ℕ };

    ghost view = { λ t. bytes_in t.kept };
}

impl Text {
    /// No bytes.
    pub fn new(alloc: Global) -> Self
        ensures { result ≡ [] }
    {
        Text {
            alloc,
            kept: Kept::InPlace(Short::new()),
        }
    }

    /// No bytes, with room for so many.
    pub fn with_capacity(alloc: Global, count: usize) -> Mem<Self>
        ensures { IfOk result (λ text. text ≡ []) }
    {
        let mut text = Text::new(alloc);
        if !Short::new().has_room(count) {
            text.kept = Kept::InVector(Vec::with_capacity(alloc, count)?);
        }
        Ok(text)
    }

    /// A copy of the bytes.
    pub fn from_bytes(alloc: Global, bytes: &[u8]) -> Mem<Self>
        ensures { IfOk result (λ text. text ≡ bytes.now) }
    {
        let kept = match Short::from_bytes(bytes) {
            Some(short) => Kept::InPlace(short),
            None => Kept::InVector(bytes.to_vec(alloc)?),
        };
        Ok(Text { alloc, kept })
    }

    /// The bytes with upper-case letters in lower case.
    pub fn lowered(alloc: Global, bytes: &[u8]) -> Mem<Self>
        ensures { IfOk result (λ text. text ≡ map lower bytes.now) }
    {
        let kept = match Short::from_bytes(bytes) {
            Some(mut short) => {
                short.lower();
                Kept::InPlace(short)
            }
            None => Kept::InVector(bytes.to_ascii_lowercase(alloc)?),
        };
        Ok(Text { alloc, kept })
    }

    /// The bytes of the vector, which isn't copied.
    pub fn from_vec(bytes: Vec<u8>) -> Self
        ensures { result ≡ bytes.items }
    {
        Text {
            alloc: *bytes.allocator(),
            kept: Kept::InVector(bytes),
        }
    }

    /// The bytes as a vector. Those that aren't in place aren't copied.
    pub fn into_vec(self) -> Mem<Vec<u8>>
        ensures { IfOk result (λ bytes. bytes.items ≡ self) }
    {
        let Text { alloc, kept } = self;
        kept.into_vec(alloc)
    }

    pub fn bytes(&self) -> &[u8]
        ensures { result.now ≡ self.now }
    {
        match &self.kept {
            Kept::InPlace(short) => short.bytes(),
            Kept::InVector(bytes) => bytes,
        }
    }

    pub fn push(&mut self, byte: u8) -> Mem<()>
        ensures ok { OnOk result (self.new ≡ self.old ++ byte ∷ []) }
        ensures err { OnErr result (self.new ≡ self.old) }
    {
        if let Kept::InVector(long) = &mut self.kept {
            long.push(byte)?;
            return Ok(());
        }
        self.append_anywhere(&[byte])
    }

    pub fn append(&mut self, bytes: &[u8]) -> Mem<()>
        ensures ok { OnOk result (self.new ≡ self.old ++ bytes.now) }
        ensures err { OnErr result (self.new ≡ self.old) }
    {
        if let Kept::InVector(long) = &mut self.kept {
            long.extend_from_slice(bytes)?;
            return Ok(());
        }
        self.append_anywhere(bytes)
    }

    // Puts the bytes at the end, wherever those before them are.
    fn append_anywhere(&mut self, bytes: &[u8]) -> Mem<()>
        ensures ok { OnOk result (self.new ≡ self.old ++ bytes.now) }
        ensures err { OnErr result (self.new ≡ self.old) }
    {
        match &mut self.kept {
            Kept::InVector(long) => long.extend_from_slice(bytes)?,
            Kept::InPlace(short) => {
                if short.has_room(bytes.len()) {
                    short.append(bytes);
                } else {
                    let long = joined(self.alloc, short.bytes(), bytes)?;
                    self.kept = Kept::InVector(long);
                }
            }
        }
        Ok(())
    }

    /// Puts the bytes at the end, the first letter in upper case.
    pub fn append_capital(&mut self, bytes: &[u8]) -> Mem<()>
        ensures ok { OnOk result (self.new ≡ self.old ++ capital bytes.now) }
        ensures err { OnErr result (self.new ≡ self.old) }
    {
        match bytes {
            [] => Ok(()),
            [first, ..] => {
                let place = self.bytes().len();
                self.append(bytes)?;
                self.set(place, upper(*first));
                Ok(())
            }
        }
    }

    // Writes the byte at the place.
    fn set(&mut self, place: usize, byte: u8)
        requires { place < length self.old }
        ensures { self.new ≡ slice_set self.old place byte }
    {
        match &mut self.kept {
            Kept::InPlace(short) => short.set(place, byte),
            Kept::InVector(long) => long[place] = byte,
        }
    }

    pub fn copy(&self) -> Mem<Self>
        ensures { IfOk result (λ text. text ≡ self.now) }
    {
        let kept = match &self.kept {
            Kept::InPlace(short) => Kept::InPlace(short.copy()),
            Kept::InVector(bytes) => Kept::InVector(bytes.clone()?),
        };
        Ok(Text {
            alloc: self.alloc,
            kept,
        })
    }
}

// The bytes of both, the first before the others.
fn joined(alloc: Global, first: &[u8], others: &[u8]) -> Mem<Vec<u8>>
    ensures { IfOk result (λ bytes. bytes.items ≡ first.now ++ others.now) }
{
    let mut bytes = Vec::with_capacity(alloc, first.len().saturating_add(others.len()))?;
    bytes.extend_from_slice(first)?;
    bytes.extend_from_slice(others)?;
    Ok(bytes)
}

impl Copied for Text {
    fn copied(&self) -> Mem<Self> {
        self.copy()
    }
}
