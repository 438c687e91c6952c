// Serves the lines of a link, each before more is read.
ghost use Rattle.std.specs.Prelude.{◌≡◌, ◌<◌, ◌≤◌, [], ◌∷◌, length, IfOk};
ghost use Rattle.dc_words.specs.Stream.{whole_lines, rest_of, line_of_rest};
ghost use Rattle.dc_serve.specs.Inside.{AnswersLine, SendsReply, ServesLines};
ghost use Rattle.dc_serve.specs.LinkRun.{ServesLink};

use crate::machine::{LineMachine, Response};
use crate::outcome::{Conversation, LinkEnd, Served, link_end};
use dc_outside::{Link, LinkError};
use dc_text::{Mem, Text};
use dc_words::{Line, Lines, MAX_PIECE};
use std::alloc::Global;

/// From so many bytes of input on, no more is read.
pub const MAX_INPUT: u64 = 1 << 40;

// So many bytes are read at most at a time. A script hands out one line.
const PIECE: usize = 8_192;

// Sends a reply, in one write.
fn send<L: Link, B: Drop>(io: &mut L, code: u8, text: &Text, last_code: &mut u8) -> Served<B>
    ensures { SendsReply result (L.link io.old) (L.link io.new) code text.now last_code.old last_code.new }
{
    match io.write(text.bytes()) {
        Ok(()) => {
            *last_code = code;
            Served::On
        }
        Err(LinkError::Failed) => {
            *last_code = code;
            Served::Failed
        }
        Err(LinkError::OutOfMemory) => Served::OutOfMemory,
    }
}

// Sends the reply of a line, where it has one.
fn answer<L: Link, B: Drop>(io: &mut L, did: Response, last_code: &mut u8) -> Served<B>
    ensures { AnswersLine did result (L.link io.old) (L.link io.new) last_code.old last_code.new }
{
    match did {
        Response::Silent => Served::On,
        Response::Stopped => Served::Stopped,
        Response::Replied { code, text } => send(io, code, &text, last_code),
    }
}

// Serves one line: one write, where it has a reply, and behind it what else is told.
fn serve_line<L: Link, H: LineMachine>(
    io: &mut L,
    machine: &mut H,
    line: &Line,
    last_code: &mut u8,
) -> Served<H::Break>
    ensures served { ServesLines H.steps H.aborts (L.link io.old) (L.link io.new)
        (H.state machine.old) (line.now ∷ []) result last_code.old (H.state machine.new) last_code.new }
    ensures borrows { H.borrows machine.new ≡ H.borrows machine.old }
{
    match machine.handle(line) {
        Err(error) => Served::Broken(error),
        Ok(did) => {
            let served = answer(io, did, last_code);
            machine.tell();
            served
        }
    }
}

// The same, of a line that isn't used again.
fn serve_taken<L: Link, H: LineMachine>(
    io: &mut L,
    machine: &mut H,
    line: Line,
    last_code: &mut u8,
) -> Served<H::Break>
    ensures served { ServesLines H.steps H.aborts (L.link io.old) (L.link io.new)
        (H.state machine.old) (line ∷ []) result last_code.old (H.state machine.new) last_code.new }
    ensures borrows { H.borrows machine.new ≡ H.borrows machine.old }
{
    serve_line(io, machine, &line, last_code)
}

// Serves the whole lines that are held, in order.
fn serve_held<L: Link, H: LineMachine>(
    io: &mut L,
    machine: &mut H,
    lines: &mut Lines,
    last_code: &mut u8,
) -> Served<H::Break>
    ensures served { ServesLines H.steps H.aborts (L.link io.old) (L.link io.new)
        (H.state machine.old) (whole_lines lines.old) result last_code.old (H.state machine.new) last_code.new }
    ensures borrows { H.borrows machine.new ≡ H.borrows machine.old }
    ensures none_left { result ≡ Served.On → whole_lines lines.new ≡ [] }
    ensures rest { rest_of lines.new ≡ rest_of lines.old }
{
    loop {
        let line = match lines.next() {
            Err(_) => return Served::OutOfMemory,
            Ok(None) => return Served::On,
            Ok(Some(line)) => line,
        };
        match serve_taken(io, machine, line, last_code) {
            Served::On => {}
            ended => return ended,
        }
    }
}

// Serves the rest without a newline as a last line, if there is one.
fn serve_rest<L: Link, H: LineMachine>(
    io: &mut L,
    machine: &mut H,
    lines: &mut Lines,
    last_code: &mut u8,
) -> Served<H::Break>
    requires { whole_lines lines.old ≡ [] }
    ensures served { ServesLines H.steps H.aborts (L.link io.old) (L.link io.new)
        (H.state machine.old) (line_of_rest (rest_of lines.old)) result last_code.old (H.state machine.new) last_code.new }
    ensures borrows { H.borrows machine.new ≡ H.borrows machine.old }
{
    match lines.last() {
        None => Served::On,
        Some(line) => serve_taken(io, machine, line, last_code),
    }
}

// Reads pieces into the buffer, and serves the lines of each before the next.
fn converse<L: Link, H: LineMachine>(
    alloc: Global,
    io: &mut L,
    machine: &mut H,
    last_code: u8,
    buf: &mut [u8],
) -> Conversation<H::Break>
    requires some { 0 < length buf.old }
    requires small { length buf.old ≤ MAX_PIECE }
    ensures serves { ServesLink H.steps H.aborts (L.link io.old) (L.link io.new)
        (H.state machine.old) result.end (H.state machine.new) last_code result.last_code }
    ensures borrows { H.borrows machine.new ≡ H.borrows machine.old }
{
    let mut lines = Lines::new(alloc);
    let mut last_code = last_code;
    let mut taken: u64 = 0;
    while taken < MAX_INPUT {
        let count = match io.read_some(buf) {
            Ok(count) => count,
            Err(LinkError::Failed) => return Conversation {
                end: LinkEnd::LinkFault,
                last_code,
            },
            Err(LinkError::OutOfMemory) => return Conversation {
                end: LinkEnd::OutOfMemory,
                last_code,
            },
        };
        if count == 0 {
            let served = serve_rest(io, machine, &mut lines, &mut last_code);
            return Conversation {
                end: link_end(served),
                last_code,
            };
        }
        match lines.feed(&buf[..count]) {
            Ok(()) => {}
            Err(_) => return Conversation {
                end: LinkEnd::OutOfMemory,
                last_code,
            },
        }
        taken += count as u64;
        match serve_held(io, machine, &mut lines, &mut last_code) {
            Served::On => {}
            ended => return Conversation {
                end: link_end(ended),
                last_code,
            },
        }
    }
    Conversation {
        end: LinkEnd::TooLong,
        last_code,
    }
}

fn buffer(alloc: Global) -> Mem<Vec<u8>>
    ensures { IfOk result (λ buf. length buf.items ≡ PIECE) }
{
    let mut buf = Vec::new(alloc);
    buf.resize(PIECE, 0)?;
    Ok(buf)
}

/// Gives the lines of the link to the machine, to the end of either. The code of the last reply so far is handed in, and the one that then
/// is the last is handed back.
pub fn serve_link<L: Link, H: LineMachine>(
    alloc: Global,
    io: &mut L,
    machine: &mut H,
    last_code: u8,
) -> Conversation<H::Break>
    ensures serves { ServesLink H.steps H.aborts (L.link io.old) (L.link io.new)
        (H.state machine.old) result.end (H.state machine.new) last_code result.last_code }
    ensures borrows { H.borrows machine.new ≡ H.borrows machine.old }
{
    match buffer(alloc) {
        Ok(mut buf) => converse(alloc, io, machine, last_code, buf.as_mut_slice()),
        Err(_) => Conversation {
            end: LinkEnd::OutOfMemory,
            last_code,
        },
    }
}
