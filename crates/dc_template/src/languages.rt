// The keys under which a field is looked for in the user's language.
ghost use Rattle.std.specs.Prelude.{◌≡◌, ◌++◌, ◌∷◌, ◌||◌, ◌==◌, [], map, position, IfOk, OnOk, true};
ghost use Rattle.std.specs.List.{list_all, filter, flat_map, before_first};
ghost use Rattle.dc_text.specs.Ascii.{dash, dot, at_sign};
ghost use Rattle.dc_text.specs.Bytes.{lower};
ghost use Rattle.dc_text.specs.Names.{is_field_key};
ghost use Rattle.dc_template.specs.Languages.{is_language as is_language_of, is_language_byte as is_language_byte_of, localised_keys, with_shorter, is_short, keys_tried_of};

use dc_text::bytes::split_at_byte;
use dc_text::{FieldKey, List, Mem, Text};
use std::alloc::Global;

/// The keys under which a field is looked for in a language such as `de_AT.UTF-8`, in order: those in the language, then
/// the plain key. A key of more than 64 bytes is passed over. A language that is empty, `C` or `POSIX`, or has a byte
/// other than letters, digits, `_` and `-` before its first `.` or `@`, gives the plain key alone.
pub fn keys_tried(alloc: Global, lang: &[u8], key: &FieldKey) -> Mem<List<FieldKey>>
    ensures { IfOk result (λ keys. keys ≡ keys_tried_of lang.now key.now) }
{
    let mut keys = List::new(alloc);
    let language = Text::lowered(alloc, without_encoding(lang))?;
    if is_language(language.bytes()) {
        add_languages(&mut keys, key, language.bytes())?;
    }
    keys.push(key.copy()?)?;
    Ok(keys)
}

// What stands before the first `.` or `@`.
fn without_encoding(lang: &[u8]) -> &[u8]
    ensures { result.now ≡ before_first (λ byte. byte == dot || byte == at_sign) lang.now }
{
    match place_of_encoding(lang) {
        Some(at) => &lang[..at],
        None => lang,
    }
}

fn place_of_encoding(lang: &[u8]) -> Option<usize>
    ensures { result ≡ position (λ byte. byte == dot || byte == at_sign) lang.now }
{
    lang.iter().position(|byte| *byte == b'.' || *byte == b'@')
}

fn is_language(language: &[u8]) -> bool
    ensures { result ≡ is_language_of language.now }
{
    !(language.is_empty() || language == b"c".as_slice() || language == b"posix".as_slice())
        && has_language_bytes(language)
}

fn has_language_bytes(language: &[u8]) -> bool
    ensures { result ≡ list_all is_language_byte_of language.now }
{
    language.iter().all(|byte| is_language_byte(*byte))
}

fn is_language_byte(byte: u8) -> bool
    ensures { result ≡ is_language_byte_of byte }
{
    (b'a' <= byte && byte <= b'z') || (b'0' <= byte && byte <= b'9') || byte == b'_' || byte == b'-'
}

// Adds the keys in a language, and those in the language before its first underscore.
fn add_languages(keys: &mut List<FieldKey>, key: &FieldKey, language: &[u8]) -> Mem<()>
    requires { list_all is_language_byte_of language.now ≡ true }
    ensures { OnOk result (keys.new ≡ keys.old ++ filter is_short (flat_map (localised_keys key.now) (with_shorter language.now))) }
{
    add_localised(keys, key, language)?;
    if let Some((shorter, _)) = split_at_byte(language, b'_') {
        add_localised(keys, key, shorter)?;
    }
    Ok(())
}

// Adds the keys in a language.
fn add_localised(keys: &mut List<FieldKey>, key: &FieldKey, language: &[u8]) -> Mem<()>
    requires { list_all is_language_byte_of language.now ≡ true }
    ensures { OnOk result (keys.new ≡ keys.old ++ filter is_short (localised_keys key.now language.now)) }
{
    let plain = localised_bytes(key, language, b"")?;
    let encoded = localised_bytes(key, language, b".utf-8")?;
    add_key(keys, encoded)?;
    add_key(keys, plain)
}

// The bytes of a key in a language, which may be too many.
fn localised_bytes(key: &FieldKey, language: &[u8], encoding: &[u8]) -> Mem<Text>
    ensures value { IfOk result (λ bytes. bytes ≡ key.now ++ dash ∷ language.now ++ encoding.now) }
    ensures key { OnOk result (is_field_key key.now ≡ true) }
{
    let mut bytes = key.copy()?.into_text();
    bytes.push(b'-')?;
    bytes.append(language)?;
    bytes.append(encoding)?;
    Ok(bytes)
}

// Adds a key, unless it is too long.
fn add_key(keys: &mut List<FieldKey>, text: Text) -> Mem<()>
    requires { is_field_key text ≡ is_short text }
    ensures { OnOk result (keys.new ≡ keys.old ++ filter is_short (text ∷ [])) }
{
    match FieldKey::from_text(text) {
        Some(key) => keys.push(key),
        None => Ok(()),
    }
}
