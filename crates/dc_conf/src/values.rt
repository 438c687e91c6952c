// The values that fields of a configuration take (debconf.conf(5)).
ghost use Rattle.std.specs.Prelude.{◌≡◌, ◌==◌, ◌++◌, true, map as each, IfOk};
ghost use Rattle.std.specs.Char.{is_ascii_alphanumeric};
ghost use Rattle.std.specs.List.{list_all, slice_split};
ghost use Rattle.std.specs.Str.{bytes_eq, is_utf8 as is_utf8_of};
ghost use Rattle.dc_text.specs.Bytes.{lower};
ghost use Rattle.dc_conf.specs.Values.{is_boolean as is_boolean_of, is_true as is_true_of, is_mode as is_mode_of, is_octal_digit as is_octal_digit_of, octal as octal_of, is_path as is_path_of, is_path_part as is_path_part_of, without_slash as without_slash_of, without_last_slash as without_last_slash_of, is_directory as is_directory_of, is_extension as is_extension_of, is_database_name as is_database_name_of, is_database_byte as is_database_byte_of, is_format as is_format_of, is_pipe_end as is_pipe_end_of, names_in as names_in_of, has_names as has_names_of, spaced as spaced_of};

use dc_text::bytes::is_space;
use dc_text::{List, Mem, Text};
use dc_words::plain_words;
use std::alloc::Global;

/// `true` or `false`, read without regard to case.
pub fn is_boolean(value: &[u8]) -> bool
    ensures { result ≡ is_boolean_of value.now }
{
    is_true(value) || is_word(value, b"false")
}

/// `true`, read without regard to case.
pub fn is_true(value: &[u8]) -> bool
    ensures { result ≡ is_true_of value.now }
{
    is_word(value, b"true")
}

/// Whether the bytes are the word, read without regard to case.
pub fn is_word(bytes: &[u8], word: &[u8]) -> bool
    ensures { result ≡ bytes_eq (each lower bytes.now) (each lower word.now) }
{
    bytes.eq_ignore_ascii_case(word)
}

/// Permission bits: three or four octal digits.
pub fn is_mode(value: &[u8]) -> bool
    ensures { result ≡ is_mode_of value.now }
{
    (value.len() == 3 || value.len() == 4) && has_octal_digits(value)
}

fn has_octal_digits(value: &[u8]) -> bool
    ensures { result ≡ list_all is_octal_digit_of value.now }
{
    value.iter().all(|byte| b'0' <= *byte && *byte <= b'7')
}

/// The number that the octal digits of permission bits spell.
pub fn octal(value: &[u8]) -> u16
    requires { is_mode_of value.now ≡ true }
    ensures { result ≡ octal_of value.now }
{
    let mut number = 0u16;
    let mut rest = value;
    while let [byte, tail @ ..] = rest {
        number = number * 8 + u16::from(*byte - b'0');
        rest = tail;
    }
    number
}

pub fn is_utf8(value: &[u8]) -> bool
    ensures { result ≡ is_utf8_of value.now }
{
    match std::str::from_utf8(value) {
        Ok(_) => true,
        Err(_) => false,
    }
}

/// A path: 1 to 3,000 bytes of UTF-8 without 0. It may begin with a slash, and its parts between slashes are never empty, `.`
/// or `..`.
pub fn is_path(value: &[u8]) -> bool
    ensures { result ≡ is_path_of value.now }
{
    1 <= value.len()
        && value.len() <= 3000
        && is_utf8(value)
        && !value.contains(&0)
        && has_path_parts(without_slash(value))
}

fn has_path_parts(path: &[u8]) -> bool
    ensures { result ≡ list_all is_path_part_of (slice_split (λ byte. byte == 47) path.now) }
{
    path.split(|byte| *byte == b'/').all(is_path_part)
}

// Neither empty, `.` nor `..`.
fn is_path_part(part: &[u8]) -> bool
    ensures { result ≡ is_path_part_of part.now }
{
    !(part.is_empty() || part == b".".as_slice() || part == b"..".as_slice())
}

// Without one slash at the front, if it is there.
fn without_slash(path: &[u8]) -> &[u8]
    ensures { result.now ≡ without_slash_of path.now }
{
    match path {
        [b'/', rest @ ..] => rest,
        _ => path,
    }
}

/// The path of a folder, which may end with a slash.
pub fn is_directory(value: &[u8]) -> bool
    ensures { result ≡ is_directory_of value.now }
{
    is_path(without_last_slash(value))
}

/// Without one slash at the end, if it is there.
pub fn without_last_slash(path: &[u8]) -> &[u8]
    ensures { result.now ≡ without_last_slash_of path.now }
{
    match path {
        [front @ .., b'/'] => front,
        _ => path,
    }
}

/// What the names of files end with: `.` and 1 to 16 letters or digits.
pub fn is_extension(value: &[u8]) -> bool
    ensures { result ≡ is_extension_of value.now }
{
    match value {
        [b'.', rest @ ..] => 1 <= rest.len() && rest.len() <= 16 && is_alphanumeric(rest),
        _ => false,
    }
}

fn is_alphanumeric(bytes: &[u8]) -> bool
    ensures { result ≡ list_all is_ascii_alphanumeric bytes.now }
{
    bytes.iter().all(|byte| byte.is_ascii_alphanumeric())
}

/// The name of a database: 1 to 64 letters, digits, `-`, `_` and `.`.
pub fn is_database_name(value: &[u8]) -> bool
    ensures { result ≡ is_database_name_of value.now }
{
    1 <= value.len() && value.len() <= 64 && has_database_bytes(value)
}

fn has_database_bytes(value: &[u8]) -> bool
    ensures { result ≡ list_all is_database_byte_of value.now }
{
    value.iter().all(|byte| byte.is_ascii_alphanumeric()
        || *byte == b'-'
        || *byte == b'_'
        || *byte == b'.')
}

/// The names of a list, which commas and whitespace part.
pub fn names_in(alloc: Global, value: &[u8]) -> Mem<List<Text>>
    ensures { IfOk result (λ names. names ≡ names_in_of value.now) }
{
    let words = with_spaces(alloc, value)?;
    plain_words(alloc, words.bytes())
}

// The bytes, with a space in the place of each comma.
fn with_spaces(alloc: Global, value: &[u8]) -> Mem<Text>
    ensures { IfOk result (λ text. text ≡ each spaced_of value.now) }
{
    let mut text = Text::new(alloc);
    let mut rest = value;
    while let [byte, tail @ ..] = rest {
        text.push(spaced(*byte))?;
        rest = tail;
    }
    Ok(text)
}

// A comma as a space.
fn spaced(byte: u8) -> u8
    ensures { result ≡ spaced_of byte }
{
    if byte == b',' { b' ' } else { byte }
}

/// Whether the list has a name.
pub fn has_names(value: &[u8]) -> bool
    ensures { result ≡ has_names_of value.now }
{
    value.iter().any(|byte| !is_space(spaced(*byte)))
}

/// The one format that there is.
pub fn is_format(value: &[u8]) -> bool
    ensures { result ≡ is_format_of value.now }
{
    value == b"822".as_slice()
}

/// An end of a pipe: the number of the descriptor that is used, or `none`.
pub fn is_pipe_end(descriptor: &[u8], value: &[u8]) -> bool
    ensures { result ≡ is_pipe_end_of descriptor.now value.now }
{
    value == descriptor || value == b"none".as_slice()
}
