// Escapes, and the words of a command line in escape mode.
ghost use Rattle.std.specs.Prelude.{◌≡◌, ◌<◌, ◌++◌, ◌∷◌, [], IfOk, MatchOption, length};
ghost use Rattle.dc_words.specs.Words.{some_word};
ghost use Rattle.dc_words.specs.Escaped.{escaped, escaped_words_of, unit_of, units_of, unescaped_byte};

use dc_text::bytes::is_space;
use dc_text::{List, Mem, Text};
use std::alloc::Global;

/// A unit of a line in escape mode.
#[derive(Clone, Copy, Drop)]
pub enum LineUnit {
    /// Whitespace, which no backslash stands before.
    Space,
    /// What stands for a byte of a word.
    Byte(u8),
}

/// The bytes, with each backslash as two and each newline as the pair of a backslash and an n.
pub fn escape(alloc: Global, bytes: &[u8]) -> Mem<Text>
    ensures { IfOk result (λ text. text ≡ escaped bytes.now) }
{
    let mut text = Text::with_capacity(alloc, bytes.len())?;
    for byte in bytes {
        match *byte {
            b'\\' => text.append(b"\\\\")?,
            b'\n' => text.append(b"\\n")?,
            other => text.push(other)?,
        }
    }
    Ok(text)
}

/// The words of a line in escape mode: the longest runs of units other than whitespace, where a backslash and the next
/// byte are one unit. It stands for a newline where that byte is an n, and otherwise for that byte. A backslash that
/// ends the line stands for itself.
pub fn unescape_words(alloc: Global, line: &[u8]) -> Mem<List<Text>>
    ensures { IfOk result (λ words. words ≡ escaped_words_of line.now) }
{
    let mut words = List::new(alloc);
    let mut rest = line;
    while !rest.is_empty() {
        let (word, after) = unescape_word(alloc, rest)?;
        if !word.bytes().is_empty() {
            words.push(word)?;
        }
        rest = after;
    }
    Ok(words)
}

// What stands before the first whitespace, unescaped, and what stands after it.
fn unescape_word(alloc: Global, line: &[u8]) -> Mem<(Text, &[u8])>
    requires { 0 < length line.now }
    ensures words { IfOk result (λ r. escaped_words_of line.now ≡ some_word r.0 ++ escaped_words_of r.1.now) }
    ensures shorter { IfOk result (λ r. length r.1.now < length line.now) }
{
    let mut word = Text::new(alloc);
    let mut rest = line;
    while let Some((unit, after)) = split_unit(rest) {
        rest = after;
        match unit {
            LineUnit::Space => return Ok((word, rest)),
            LineUnit::Byte(byte) => word.push(byte)?,
        }
    }
    Ok((word, rest))
}

// The first unit, and what stands after it.
fn split_unit(line: &[u8]) -> Option<(LineUnit, &[u8])>
    ensures { MatchOption result (line.now ≡ []) (λ r. (units_of line.now ≡ r.0 ∷ units_of r.1.now) × (length r.1.now < length line.now)) }
{
    match line {
        [] => None,
        [b'\\', next, rest @ ..] => Some((LineUnit::Byte(unescape_byte(*next)), rest)),
        [first, rest @ ..] => Some((read_unit(*first), rest)),
    }
}

// A byte that no backslash stands before.
fn read_unit(byte: u8) -> LineUnit
    ensures { result ≡ unit_of byte }
{
    if is_space(byte) {
        LineUnit::Space
    } else {
        LineUnit::Byte(byte)
    }
}

// What a backslash before this byte makes of it.
fn unescape_byte(byte: u8) -> u8
    ensures { result ≡ unescaped_byte byte }
{
    if byte == b'n' { b'\n' } else { byte }
}
