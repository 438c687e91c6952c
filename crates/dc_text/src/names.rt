// Names of questions, templates and owners.
ghost use Rattle.std.specs.Prelude.{◌≡◌, ◌==◌, IfOk, OnOk, true, false};
ghost use Rattle.std.specs.List.{list_all, slice_split};
ghost use Rattle.dc_text.specs.Ascii.{slash};
ghost use Rattle.dc_text.specs.Names.{is_name as is_name_of, is_name_part as is_name_part_of, is_name_byte as is_name_byte_of, is_visible as is_visible_of, has_length as has_length_of};

use crate::lists::Copied;
use crate::memory::{Mem, OutOfMemory};
use crate::texts::Text;
use std::alloc::Global;
use std::marker::Model;

/// The name of a question, a template or an owner (debconf-devel(7)): 1 to 255 printable ASCII bytes without spaces and
/// commas. Its parts between slashes are never empty, `.` or `..`.
#[derive(Drop)]
pub struct Name {
    text: Text,
}

impl Model for Name {
    ghost use Rattle.std.specs.Prelude.{List, ℕ, IsTrue};
    ghost use Rattle.dc_text.specs.Ascii.{slash};
    ghost use Rattle.dc_text.specs.Names.{is_name};

    ghost Value = { List ℕ };

    ghost view = { λ n. n.text };

    ghost invariant = { λ n. IsTrue (is_name n.text) };
}

/// Why bytes are no name, or no key of its kind.
#[derive(Clone, Copy, Debug, PartialEq, Eq)]
pub enum NameRefused {
    Bad,
    OutOfMemory,
}

impl From<OutOfMemory> for NameRefused {
    ghost use Rattle.std.specs.Prelude.{◌≡◌};
    ghost use Rattle.dc_text.specs.declared.names.NameRefused.TheVariants.{OutOfMemory};

    ghost from_gives = { λ _ e. e ≡ OutOfMemory };

    fn from(_: OutOfMemory) -> Self {
        NameRefused::OutOfMemory
    }
}

impl Name {
    /// The name that the bytes are. `Bad` comes exactly where they are none.
    pub fn read(alloc: Global, bytes: &[u8]) -> Result<Self, NameRefused>
        ensures value { IfOk result (λ name. name ≡ bytes.now) }
        ensures ok { OnOk result (is_name_of bytes.now ≡ true) }
        ensures bad { result ≡ Err NameRefused.Bad → is_name_of bytes.now ≡ false }
    {
        if !is_name(bytes) {
            return Err(NameRefused::Bad);
        }
        let text = Text::from_bytes(alloc, bytes)?;
        Ok(Name { text })
    }

    pub fn bytes(&self) -> &[u8]
        ensures value { result.now ≡ self.now }
        ensures name { is_name_of self.now ≡ true }
    {
        self.text.bytes()
    }

    pub fn copy(&self) -> Mem<Self>
        ensures { IfOk result (λ name. name ≡ self.now) }
    {
        let text = self.text.copy()?;
        Ok(Name { text })
    }

    /// The bytes as a text, which isn't copied.
    pub fn into_text(self) -> Text
        ensures value { result ≡ self }
        ensures name { is_name_of self ≡ true }
    {
        self.text
    }
}

impl Copied for Name {
    fn copied(&self) -> Mem<Self> {
        self.copy()
    }
}

/// Whether the bytes are a name.
pub fn is_name(bytes: &[u8]) -> bool
    ensures { result ≡ is_name_of bytes.now }
{
    has_length(bytes, 255) && has_name_bytes(bytes) && has_name_parts(bytes)
}

pub(crate) fn has_length(bytes: &[u8], most: usize) -> bool
    ensures { result ≡ has_length_of most bytes.now }
{
    1 <= bytes.len() && bytes.len() <= most
}

// Each byte is looked at, whatever came before it, so that many are at once.
pub(crate) fn has_name_bytes(bytes: &[u8]) -> bool
    ensures { result ≡ list_all is_name_byte_of bytes.now }
{
    let mut are = true;
    for byte in bytes {
        are &= is_name_byte(*byte);
    }
    are
}

fn has_name_parts(bytes: &[u8]) -> bool
    ensures { result ≡ list_all is_name_part_of (slice_split (λ b. b == slash) bytes.now) }
{
    bytes.split(|byte| *byte == b'/').all(is_name_part)
}

fn is_name_part(part: &[u8]) -> bool
    ensures { result ≡ is_name_part_of part.now }
{
    !matches!(part, [] | [b'.'] | [b'.', b'.'])
}

fn is_name_byte(byte: u8) -> bool
    ensures { result ≡ is_name_byte_of byte }
{
    is_visible(byte) && byte != b','
}

pub(crate) fn is_visible(byte: u8) -> bool
    ensures { result ≡ is_visible_of byte }
{
    33 <= byte && byte <= 126
}
