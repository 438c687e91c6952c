// The lines of the wire.
ghost use Rattle.std.specs.Prelude.{◌≡◌, ◌<◌, ◌∷◌, ◌++◌, [], length, true, None, IfOk, OnOk, MatchOption};
ghost use Rattle.dc_text.specs.Lines.{text_of};
ghost use Rattle.dc_proto.specs.Replies.{told_text};
ghost use Rattle.dc_pass.specs.Wire.{wire_line};
ghost use Rattle.dc_pass.specs.Machine.{said, said_behind, unescaped as unescaped_of, escape_meant, with_byte};

use dc_text::bytes::split_at_byte;
use dc_text::{Mem, Text};
use dc_words::escape;
use std::alloc::Global;

/// What a line says: a word, and a text that may be empty.
#[derive(Drop)]
pub struct WireLine {
    pub word: Text,
    pub text: Text,
}

/// Prints a line at the end.
pub fn append_line(alloc: Global, out: &mut Text, word: &[u8], text: &[u8]) -> Mem<()>
    ensures { OnOk result (out.new ≡ out.old ++ text_of (wire_line word.now text.now ∷ [])) }
{
    out.append(word)?;
    append_told(alloc, out, text)?;
    out.push(b'\n')
}

// A space and the text, escaped, where it isn't empty.
fn append_told(alloc: Global, out: &mut Text, text: &[u8]) -> Mem<()>
    ensures { OnOk result (out.new ≡ out.old ++ told_text true text.now) }
{
    match text {
        [] => Ok(()),
        _ => {
            out.push(b' ')?;
            out.append(escape(alloc, text)?.bytes())
        }
    }
}

/// What a line says. `None` comes where it isn't spelled as a line of the wire is.
pub fn read_line(alloc: Global, line: &[u8]) -> Mem<Option<WireLine>>
    ensures { IfOk result (λ found. found ≡ said line.now) }
{
    match split_at_byte(line, b' ') {
        Some((word, escaped)) => read_behind(alloc, word, escaped),
        None => Ok(Some(WireLine {
            word: Text::from_bytes(alloc, line)?,
            text: Text::new(alloc),
        })),
    }
}

// What a word and an escaped text behind a space say.
fn read_behind(alloc: Global, word: &[u8], escaped: &[u8]) -> Mem<Option<WireLine>>
    ensures { IfOk result (λ found. found ≡ said_behind word.now escaped.now) }
{
    if escaped.is_empty() {
        return Ok(None);
    }
    match unescape(alloc, escaped)? {
        Some(text) => Ok(Some(WireLine {
            word: Text::from_bytes(alloc, word)?,
            text,
        })),
        None => Ok(None),
    }
}

// The text that is escaped so, `None` where none is.
fn unescape(alloc: Global, escaped: &[u8]) -> Mem<Option<Text>>
    ensures { IfOk result (λ found. found ≡ unescaped_of escaped.now) }
{
    let mut text = Text::new(alloc);
    let mut rest = escaped;
    while !rest.is_empty() {
        match split_unit(rest) {
            Some((byte, after)) => {
                text.push(byte)?;
                rest = after;
            }
            None => return Ok(None),
        }
    }
    Ok(Some(text))
}

// The first byte that is meant, and what stands behind it. `None` comes where no text is escaped so.
fn split_unit(escaped: &[u8]) -> Option<(u8, &[u8])>
    requires { 0 < length escaped.now }
    ensures { MatchOption result (unescaped_of escaped.now ≡ None)
        (λ r. (unescaped_of escaped.now ≡ with_byte (Some r.0) (unescaped_of r.1.now)) × (length r.1.now < length escaped.now)) }
{
    match escaped {
        [] => None,
        [b'\\', next, rest @ ..] => match escaped_byte(*next) {
            Some(byte) => Some((byte, rest)),
            None => None,
        },
        [b'\\' | b'\n', ..] => None,
        [byte, rest @ ..] => Some((*byte, rest)),
    }
}

// What a backslash and this byte stand for.
fn escaped_byte(next: u8) -> Option<u8>
    ensures { result ≡ escape_meant next }
{
    match next {
        b'\\' => Some(b'\\'),
        b'n' => Some(b'\n'),
        _ => None,
    }
}
