// Replies.
ghost use Rattle.std.specs.Prelude.{◌≡◌, ◌++◌, IfOk, OnOk, decimal};
ghost use Rattle.dc_text.specs.Settled.{newlines_shown};
ghost use Rattle.dc_proto.specs.Replies.{printed, told_text, in_one_line};

use dc_text::bytes::split_at_byte;
use dc_text::{Mem, Text, show_newlines};
use dc_words::escape as escape_text;
use itoa::Buffer;
use std::alloc::Global;

// Room for a code, the space behind it, and the newline.
const ROOM: usize = 5;

/// A reply: its code, and its text, which may be empty.
#[derive(Drop)]
pub struct Reply {
    pub code: u8,
    pub text: Text,
}

impl Reply {
    ghost use Rattle.dc_proto.specs.Replies.{reply};

    /// A reply of this code and text.
    pub fn new(alloc: Global, code: u8, text: &[u8]) -> Mem<Self>
        ensures { IfOk result (λ made. made ≡ reply code text.now) }
    {
        let text = Text::from_bytes(alloc, text)?;
        Ok(Reply { code, text })
    }

    /// A reply of this code and text, which isn't copied.
    pub fn of(code: u8, text: Text) -> Self
        ensures { result ≡ reply code text }
    {
        Reply { code, text }
    }
}

/// The line that the reply is sent as: its code in decimal, a space and its text where that isn't empty, and a newline. In
/// escape mode the text is escaped; in plain mode each newline is the pair of a backslash and an n.
pub fn print_reply(alloc: Global, reply: &Reply, escape: bool) -> Mem<Text>
    ensures { IfOk result (λ line. line ≡ printed escape reply.now) }
{
    let text = reply.text.bytes();
    let mut line = Text::with_capacity(alloc, text.len().saturating_add(ROOM))?;
    append_code(&mut line, reply.code)?;
    append_told(alloc, &mut line, text, escape)?;
    line.push(b'\n')?;
    Ok(line)
}

fn append_code(line: &mut Text, code: u8) -> Mem<()>
    ensures { OnOk result (line.new ≡ line.old ++ decimal code) }
{
    let mut buffer = Buffer::new();
    line.append(buffer.format(code).as_bytes())
}

fn append_told(alloc: Global, line: &mut Text, text: &[u8], escape: bool) -> Mem<()>
    ensures { OnOk result (line.new ≡ line.old ++ told_text escape text.now) }
{
    match text {
        [] => Ok(()),
        _ => {
            line.push(b' ')?;
            append_in_one_line(alloc, line, text, escape)
        }
    }
}

fn append_in_one_line(alloc: Global, line: &mut Text, text: &[u8], escape: bool) -> Mem<()>
    ensures { OnOk result (line.new ≡ line.old ++ in_one_line escape text.now) }
{
    if escape {
        line.append(escape_text(alloc, text)?.bytes())
    } else {
        append_plain(alloc, line, text)
    }
}

// Appends the text with each newline shown. A text without one is appended as it is.
fn append_plain(alloc: Global, line: &mut Text, text: &[u8]) -> Mem<()>
    ensures { OnOk result (line.new ≡ line.old ++ newlines_shown text.now) }
{
    match split_at_byte(text, b'\n') {
        None => line.append(text),
        Some(_) => line.append(show_newlines(alloc, text)?.bytes()),
    }
}
