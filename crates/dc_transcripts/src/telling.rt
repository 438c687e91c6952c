// What comes of a run, in lines.
ghost use Rattle.std.specs.Prelude.{◌≤◌, length};

use dc_outside::{FilesCall, FilesOp, Piece};
use dc_text::Text;
use dc_text::bytes::split_line;
use std::alloc::Global;

/// The longest line that is told as a whole.
const LONG: usize = 400;

/// How much is told of a longer one.
const FRONT: usize = 20;

/// Lines in a row that are the same are told once, from so many on.
const MANY: u64 = 4;

/// Each line of the bytes behind a mark; one that comes many times in a row stands once, with `*N` behind the mark.
pub fn append_lines(alloc: Global, told: &mut Text, mark: &[u8], bytes: &[u8]) -> Option<()> {
    let mut rest = bytes;
    while !rest.is_empty() {
        let (line, after) = split_line(rest);
        let (count, after) = same_lines(line, after);
        if count < MANY {
            for _ in 0..count {
                append_line(alloc, told, mark, line)?;
            }
        } else {
            let mark_of_many = format!(in alloc; "*{count}").ok()?;
            told.append(mark).ok()?;
            append_line(alloc, told, mark_of_many.as_bytes(), line)?;
        }
        rest = after;
    }
    match bytes {
        [] | [.., b'\n'] => Some(()),
        _ => told.append(b"\\ no newline\n").ok(),
    }
}

// How often the line comes, once and then at the front of a text, and what stands behind it.
fn same_lines<'t>(line: &[u8], text: &'t [u8]) -> (u64, &'t [u8])
    ensures { length result.1.now ≤ length text.now }
{
    let mut count: u64 = 1;
    let mut rest = text;
    while !rest.is_empty() {
        let (next, after) = split_line(rest);
        if next != line {
            return (count, rest);
        }
        count = count.saturating_add(1);
        rest = after;
    }
    (count, rest)
}

fn append_line(alloc: Global, told: &mut Text, mark: &[u8], line: &[u8]) -> Option<()> {
    told.append(mark).ok()?;
    if !line.is_empty() {
        told.push(b' ').ok()?;
    }
    append_plain(alloc, told, line)?;
    told.push(b'\n').ok()
}

// The bytes, of which those that aren't printed as they are stand as `<N>`. Of very many the front stands, and how many there are.
fn append_plain(alloc: Global, told: &mut Text, bytes: &[u8]) -> Option<()> {
    if LONG < bytes.len() {
        append_bytes(alloc, told, &bytes[..FRONT])?;
        let rest = format!(in alloc; ".. ({} bytes)", bytes.len()).ok()?;
        return told.append(rest.as_bytes()).ok();
    }
    append_bytes(alloc, told, bytes)
}

fn append_bytes(alloc: Global, told: &mut Text, bytes: &[u8]) -> Option<()> {
    for byte in bytes {
        if b' ' <= *byte && *byte <= b'~' {
            told.push(*byte).ok()?;
        } else {
            let number = format!(in alloc; "<{byte}>").ok()?;
            told.append(number.as_bytes()).ok()?;
        }
    }
    Some(())
}

/// A line with a text, the path and a further text.
pub fn append_path(told: &mut Text, before: &[u8], path: &Text, behind: &[u8]) -> Option<()> {
    told.append(before).ok()?;
    told.append(path.bytes()).ok()?;
    told.append(behind).ok()?;
    told.push(b'\n').ok()
}

/// What stands at the path: no file, the text of before, or another.
pub fn append_file(
    alloc: Global,
    told: &mut Text,
    path: &Text,
    found: Option<&Text>,
    before: Option<&Text>,
) -> Option<()> {
    match (found, before) {
        (None, _) => append_path(told, b"- no ", path, b""),
        (Some(text), Some(old)) if text.bytes() == old.bytes() => {
            append_path(told, b"- ", path, b" as before")
        }
        (Some(text), _) => {
            append_path(told, b"- ", path, b"")?;
            append_lines(alloc, told, b"|", text.bytes())
        }
    }
}

/// What was said over a link, piece by piece.
pub fn append_talk(alloc: Global, told: &mut Text, talk: &[Piece]) -> Option<()> {
    for piece in talk {
        let (what, bytes) = match piece {
            Piece::Got(bytes) => (b"- got".as_slice(), bytes.bytes()),
            Piece::Sent(bytes) => (b"- sent".as_slice(), bytes.bytes()),
            Piece::Cut(front) if front.bytes().is_empty() => {
                (b"- failed to write".as_slice(), b"".as_slice())
            }
            Piece::Cut(front) => (b"- failed to write behind".as_slice(), front.bytes()),
            Piece::Lost => (b"- failed to read".as_slice(), b"".as_slice()),
        };
        append_line(alloc, told, what, bytes)?;
    }
    Some(())
}

/// The calls of files, a line for each row of them that ends where names are synced or begins a save.
pub fn append_calls(told: &mut Text, calls: &[FilesCall]) -> Option<()> {
    let mut last: Option<FilesOp> = None;
    for call in calls {
        let between = match last {
            None => b"- ".as_slice(),
            Some(before) if begins_save(before, call.op) => b"\n- ".as_slice(),
            Some(_) => b", ".as_slice(),
        };
        told.append(between).ok()?;
        append_call(told, call)?;
        last = Some(call.op);
    }
    match last {
        None => told.append(b"- no calls\n").ok(),
        Some(_) => told.push(b'\n').ok(),
    }
}

fn begins_save(before: FilesOp, op: FilesOp) -> bool {
    op == FilesOp::Write && before != FilesOp::Sync
}

fn append_call(told: &mut Text, call: &FilesCall) -> Option<()> {
    let what = match call.op {
        FilesOp::Read => b"read ".as_slice(),
        FilesOp::List => b"list ".as_slice(),
        FilesOp::Write => b"write ".as_slice(),
        FilesOp::Sync => b"sync ".as_slice(),
        FilesOp::Rename => b"rename to ".as_slice(),
        FilesOp::SyncNames => b"sync names".as_slice(),
        FilesOp::Remove => b"remove ".as_slice(),
    };
    told.append(what).ok()?;
    told.append(call.path.bytes()).ok()?;
    if call.ok {
        return Some(());
    }
    told.append(b" failed").ok()
}
