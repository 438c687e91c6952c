// Small steps over bytes, which the readers of all formats share.
ghost use Rattle.std.specs.Prelude.{◌≡◌, ◌∷◌, ◌<◌, ◌≤◌, ◌==◌, [], length, drop, position, MatchOption, true, false};
ghost use Rattle.std.specs.List.{list_any, list_all, before_first, after_first};
ghost use Rattle.dc_text.specs.Bytes.{is_space as is_space_of, is_blank as is_blank_of, is_indented as is_indented_of, without_space as without_space_of, trimmed, drop_front, drop_back, upper as upper_of};
ghost use Rattle.dc_text.specs.Lines.{lines_of, text_lines};

use bstr::ByteSlice;

/// Whether the byte is whitespace: space, tab, line tabulation, form feed or carriage return.
pub fn is_space(byte: u8) -> bool
    ensures { result ≡ is_space_of byte }
{
    byte == b' ' || byte == b'\t' || (11 <= byte && byte <= 13)
}

/// Whether the bytes are whitespace alone.
pub fn is_blank(bytes: &[u8]) -> bool
    ensures { result ≡ is_blank_of bytes.now }
{
    bytes.iter().all(|byte| is_space(*byte))
}

/// Whether the bytes begin with a space or a tab.
pub fn is_indented(bytes: &[u8]) -> bool
    ensures { result ≡ is_indented_of bytes.now }
{
    match bytes {
        [] => false,
        [first, ..] => *first == b' ' || *first == b'\t',
    }
}

/// The bytes without one space at the front, if it is there.
pub fn without_space(bytes: &[u8]) -> &[u8]
    ensures { result.now ≡ without_space_of bytes.now }
{
    match bytes {
        [b' ', rest @ ..] => rest,
        _ => bytes,
    }
}

/// The bytes without whitespace at both ends.
pub fn trim(bytes: &[u8]) -> &[u8]
    ensures { result.now ≡ trimmed bytes.now }
{
    trim_end(trim_start(bytes))
}

fn trim_start(bytes: &[u8]) -> &[u8]
    ensures { result.now ≡ drop_front is_space_of bytes.now }
{
    let mut rest = bytes;
    while let [first, tail @ ..] = rest
        && is_space(*first)
    {
        rest = tail;
    }
    rest
}

/// The bytes without whitespace at the end.
pub fn trim_end(bytes: &[u8]) -> &[u8]
    ensures { result.now ≡ drop_back is_space_of bytes.now }
{
    let mut rest = bytes;
    while let [front @ .., last] = rest
        && is_space(*last)
    {
        rest = front;
    }
    rest
}

/// Where the byte stands first.
pub fn place_of(bytes: &[u8], byte: u8) -> Option<usize>
    ensures { result ≡ position (λ b. b == byte) bytes.now }
{
    bytes.find_byte(byte)
}

/// What stands before and after the first such byte.
pub fn split_at_byte(bytes: &[u8], byte: u8) -> Option<(&[u8], &[u8])>
    ensures { MatchOption result (list_any (λ b. b == byte) bytes.now ≡ false) (λ r. (list_any (λ b. b == byte) bytes.now ≡ true)
        × (r.0.now ≡ before_first (λ b. b == byte) bytes.now) × (r.1.now ≡ after_first (λ b. b == byte) bytes.now)) }
{
    match place_of(bytes, byte) {
        Some(at) => Some((&bytes[..at], &bytes[at + 1..])),
        None => None,
    }
}

/// The first line of a text that isn't empty, and the text after it.
pub fn split_line(text: &[u8]) -> (&[u8], &[u8])
    requires { 0 < length text.now }
    ensures lines { lines_of text.now ≡ result.0.now ∷ lines_of result.1.now }
    ensures shorter { length result.1.now < length text.now }
{
    match place_of(text, b'\n') {
        Some(at) => (&text[..at], &text[at + 1..]),
        None => (text, &text[text.len()..]),
    }
}

/// Where the rest of a text begins, behind its last newline.
pub fn rest_begins(text: &[u8]) -> usize
    ensures within { result ≤ length text.now }
    ensures rest { drop result text.now ≡ (text_lines text.now).rest }
{
    match text.rfind_byte(b'\n') {
        Some(at) => at + 1,
        None => 0,
    }
}

/// A lower-case letter in upper case, and any other byte as it is.
pub fn upper(byte: u8) -> u8
    ensures { result ≡ upper_of byte }
{
    if b'a' <= byte && byte <= b'z' {
        byte - 32
    } else {
        byte
    }
}
