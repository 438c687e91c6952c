// Keys of fields, flags and variables.
ghost use Rattle.std.specs.Prelude.{◌≡◌, IfOk, OnOk, MatchOption, true, false, map};
ghost use Rattle.std.specs.List.{list_all};
ghost use Rattle.std.specs.Str.{bytes_eq};
ghost use Rattle.dc_text.specs.Bytes.{lower as lower_of};
ghost use Rattle.dc_text.specs.Names.{is_field_key as is_field_key_of, is_flag_name as is_flag_name_of, is_variable_key as is_variable_key_of, is_key_byte as is_key_byte_of, is_variable_byte as is_variable_byte_of, is_lower_letter as is_lower_letter_of, begins_with_letter as begins_with_letter_of, is_reserved as is_reserved_of};

use crate::lists::Copied;
use crate::memory::Mem;
use crate::names::{NameRefused, has_length, has_name_bytes, is_visible};
use crate::texts::Text;
use std::alloc::Global;
use std::marker::Model;

/// The key of a field, in lower case: 1 to 64 bytes, a letter, then letters, digits, `-`, `_`, `.` and `@`, and none of
/// `name`, `owners`, `flags` and `variables`.
#[derive(Drop)]
pub struct FieldKey {
    text: Text,
}

impl Model for FieldKey {
    ghost use Rattle.std.specs.Prelude.{List, ℕ, IsTrue};
    ghost use Rattle.dc_text.specs.Names.{is_field_key};

    ghost Value = { List ℕ };

    ghost view = { λ k. k.text };

    ghost invariant = { λ k. IsTrue (is_field_key k.text) };
}

impl FieldKey {
    /// The key that the bytes are in lower case. `Bad` comes exactly where they are none.
    pub fn read(alloc: Global, bytes: &[u8]) -> Result<Self, NameRefused>
        ensures value { IfOk result (λ key. key ≡ map lower_of bytes.now) }
        ensures ok { OnOk result (is_field_key_of (map lower_of bytes.now) ≡ true) }
        ensures bad { result ≡ Err NameRefused.Bad → is_field_key_of (map lower_of bytes.now) ≡ false }
    {
        let text = Text::lowered(alloc, bytes)?;
        if !is_field_key(text.bytes()) {
            return Err(NameRefused::Bad);
        }
        Ok(FieldKey { text })
    }

    /// The key that bytes which are known to be one are.
    pub fn known(alloc: Global, bytes: &[u8]) -> Mem<Self>
        requires { is_field_key_of bytes.now ≡ true }
        ensures { IfOk result (λ key. key ≡ bytes.now) }
    {
        let text = Text::from_bytes(alloc, bytes)?;
        Ok(FieldKey { text })
    }

    /// The key that the text is, as it stands. `None` comes exactly where it is none.
    pub fn from_text(text: Text) -> Option<Self>
        ensures { MatchOption result (is_field_key_of text ≡ false) (λ key. (key ≡ text) × (is_field_key_of text ≡ true)) }
    {
        if is_field_key(text.bytes()) {
            Some(FieldKey { text })
        } else {
            None
        }
    }

    pub fn bytes(&self) -> &[u8]
        ensures value { result.now ≡ self.now }
        ensures key { is_field_key_of self.now ≡ true }
    {
        self.text.bytes()
    }

    pub fn copy(&self) -> Mem<Self>
        ensures { IfOk result (λ key. key ≡ self.now) }
    {
        let text = self.text.copy()?;
        Ok(FieldKey { text })
    }

    /// The bytes as a text, which isn't copied.
    pub fn into_text(self) -> Text
        ensures value { result ≡ self }
        ensures key { is_field_key_of self ≡ true }
    {
        self.text
    }
}

/// The name of a flag: 1 to 255 printable ASCII bytes without spaces and commas.
#[derive(Drop)]
pub struct FlagName {
    text: Text,
}

impl Model for FlagName {
    ghost use Rattle.std.specs.Prelude.{List, ℕ, IsTrue};
    ghost use Rattle.dc_text.specs.Names.{is_flag_name};

    ghost Value = { List ℕ };

    ghost view = { λ k. k.text };

    ghost invariant = { λ k. IsTrue (is_flag_name k.text) };
}

impl FlagName {
    /// The name that the bytes are. `Bad` comes exactly where they are none.
    pub fn read(alloc: Global, bytes: &[u8]) -> Result<Self, NameRefused>
        ensures value { IfOk result (λ flag. flag ≡ bytes.now) }
        ensures ok { OnOk result (is_flag_name_of bytes.now ≡ true) }
        ensures bad { result ≡ Err NameRefused.Bad → is_flag_name_of bytes.now ≡ false }
    {
        if !is_flag_name(bytes) {
            return Err(NameRefused::Bad);
        }
        let text = Text::from_bytes(alloc, bytes)?;
        Ok(FlagName { text })
    }

    pub fn bytes(&self) -> &[u8]
        ensures value { result.now ≡ self.now }
        ensures flag { is_flag_name_of self.now ≡ true }
    {
        self.text.bytes()
    }

    pub fn copy(&self) -> Mem<Self>
        ensures { IfOk result (λ flag. flag ≡ self.now) }
    {
        let text = self.text.copy()?;
        Ok(FlagName { text })
    }

    /// The bytes as a text, which isn't copied.
    pub fn into_text(self) -> Text
        ensures value { result ≡ self }
        ensures flag { is_flag_name_of self ≡ true }
    {
        self.text
    }
}

impl Copied for FlagName {
    fn copied(&self) -> Mem<Self> {
        self.copy()
    }
}

/// The key of a variable: 1 to 255 printable ASCII bytes without spaces, `=` and `}`.
#[derive(Drop)]
pub struct VarKey {
    text: Text,
}

impl Model for VarKey {
    ghost use Rattle.std.specs.Prelude.{List, ℕ, IsTrue};
    ghost use Rattle.dc_text.specs.Names.{is_variable_key};

    ghost Value = { List ℕ };

    ghost view = { λ k. k.text };

    ghost invariant = { λ k. IsTrue (is_variable_key k.text) };
}

impl VarKey {
    /// The key that the bytes are. `Bad` comes exactly where they are none.
    pub fn read(alloc: Global, bytes: &[u8]) -> Result<Self, NameRefused>
        ensures value { IfOk result (λ key. key ≡ bytes.now) }
        ensures ok { OnOk result (is_variable_key_of bytes.now ≡ true) }
        ensures bad { result ≡ Err NameRefused.Bad → is_variable_key_of bytes.now ≡ false }
    {
        if !is_variable_key(bytes) {
            return Err(NameRefused::Bad);
        }
        let text = Text::from_bytes(alloc, bytes)?;
        Ok(VarKey { text })
    }

    pub fn bytes(&self) -> &[u8]
        ensures value { result.now ≡ self.now }
        ensures key { is_variable_key_of self.now ≡ true }
    {
        self.text.bytes()
    }

    pub fn copy(&self) -> Mem<Self>
        ensures { IfOk result (λ key. key ≡ self.now) }
    {
        let text = self.text.copy()?;
        Ok(VarKey { text })
    }

    /// The bytes as a text, which isn't copied.
    pub fn into_text(self) -> Text
        ensures value { result ≡ self }
        ensures key { is_variable_key_of self ≡ true }
    {
        self.text
    }
}

/// Whether the bytes are the key of a field, in lower case.
pub fn is_field_key(key: &[u8]) -> bool
    ensures { result ≡ is_field_key_of key.now }
{
    begins_with_letter(key) && has_length(key, 64) && has_key_bytes(key) && !is_reserved(key)
}

fn begins_with_letter(key: &[u8]) -> bool
    ensures { result ≡ begins_with_letter_of key.now }
{
    match key {
        [] => false,
        [first, ..] => is_lower_letter(*first),
    }
}

fn is_lower_letter(byte: u8) -> bool
    ensures { result ≡ is_lower_letter_of byte }
{
    b'a' <= byte && byte <= b'z'
}

// Each byte is looked at, whatever came before it, so that many are at once.
fn has_key_bytes(key: &[u8]) -> bool
    ensures { result ≡ list_all is_key_byte_of key.now }
{
    let mut are = true;
    for byte in key {
        are &= is_key_byte(*byte);
    }
    are
}

fn is_key_byte(byte: u8) -> bool
    ensures { result ≡ is_key_byte_of byte }
{
    is_lower_letter(byte)
        || (b'0' <= byte && byte <= b'9')
        || (b'-' <= byte && byte <= b'.')
        || byte == b'_'
        || byte == b'@'
}

/// Whether the word, in lower case, heads a line of its own kind in a record.
pub fn is_reserved(word: &[u8]) -> bool
    ensures { result ≡ is_reserved_of word.now }
{
    match word.len() {
        4 => word == b"name".as_slice(),
        5 => word == b"flags".as_slice(),
        6 => word == b"owners".as_slice(),
        9 => word == b"variables".as_slice(),
        _ => false,
    }
}

/// Whether the bytes are the name of a flag.
pub fn is_flag_name(bytes: &[u8]) -> bool
    ensures { result ≡ is_flag_name_of bytes.now }
{
    has_length(bytes, 255) && has_name_bytes(bytes)
}

fn is_variable_key(bytes: &[u8]) -> bool
    ensures { result ≡ is_variable_key_of bytes.now }
{
    has_length(bytes, 255) && has_variable_bytes(bytes)
}

fn has_variable_bytes(bytes: &[u8]) -> bool
    ensures { result ≡ list_all is_variable_byte_of bytes.now }
{
    bytes.iter().all(|byte| is_variable_byte(*byte))
}

fn is_variable_byte(byte: u8) -> bool
    ensures { result ≡ is_variable_byte_of byte }
{
    is_visible(byte) && !(byte == b'=' || byte == b'}')
}
