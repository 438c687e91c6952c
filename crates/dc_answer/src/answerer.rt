// What heeds the lines that a session sends.
ghost use Rattle.std.specs.Prelude.{◌≡◌, IfOk, MatchResult};
ghost use Rattle.std.specs.Borrow.{GName};
ghost use Rattle.dc_answer.specs.Answering.{AnswererState, answerer_of, ComesTo, TakesWireLine, LosesWireLine, break_of, reply_text};

use dc_frontend::Shown;
use dc_outside::{Link, LinkError};
use dc_pass::{RequestReader, WireCall, WireError, print_answers};
use dc_serve::{LineMachine, Response};
use dc_teletype::{Asked, Teletype};
use dc_text::{List, Mem, OutOfMemory, Text};
use dc_words::Line;
use std::alloc::Global;

/// Why a line isn't heeded to its end.
#[derive(Clone, Copy, Debug, PartialEq, Eq)]
pub enum AnswerBreak {
    /// This line is unreadable, counted from 1.
    Wire { line: u64 },
    /// Reading from the terminal, or writing to it, failed.
    Term,
    OutOfMemory,
}

impl From<OutOfMemory> for AnswerBreak {
    ghost use Rattle.std.specs.Prelude.{◌≡◌};
    ghost use Rattle.dc_answer.specs.declared.answerer.AnswerBreak.TheVariants.{OutOfMemory};

    ghost from_gives = { λ _ e. e ≡ OutOfMemory };

    fn from(_: OutOfMemory) -> Self {
        AnswerBreak::OutOfMemory
    }
}

/// Heeds the lines that a session sends, and asks on a terminal.
#[derive(Drop)]
pub struct Answerer<'t, T: Link> {
    pub alloc: Global,
    pub reader: RequestReader,
    pub got: u64,
    pub terminal: &'t mut T,
    pub teletype: Teletype,
}

impl<'t, T: Link> LineMachine for Answerer<'t, T> {
    type Break = AnswerBreak;

    ghost State = { AnswererState };

    ghost state = { answerer_of T.link };

    ghost handles = { TakesWireLine };

    ghost steps = { TakesWireLine };

    ghost aborts = { LosesWireLine };

    ghost Borrows = { GName };

    ghost borrows = { λ a. a.terminal.ghost_name };

    fn handle(&mut self, line: &Line) -> Result<Response, AnswerBreak> {
        self.got = self.got.saturating_add(1);
        match self.reader.take(line_copy(line)?) {
            Ok(None) => Ok(Response::Silent),
            Ok(Some(call)) => heed(self.alloc, &mut self.teletype, self.terminal, call),
            Err(WireError::Bad) => Err(AnswerBreak::Wire { line: self.got }),
            Err(WireError::OutOfMemory) => Err(AnswerBreak::OutOfMemory),
        }
    }

    fn tell(&mut self) {}
}

// What a call comes to on the terminal.
fn heed<T: Link>(
    alloc: Global,
    teletype: &mut Teletype,
    terminal: &mut T,
    call: WireCall,
) -> Result<Response, AnswerBreak>
    ensures { ComesTo call (record { link = T.link terminal.old; ahead = teletype.old.ahead })
        result (record { link = T.link terminal.new; ahead = teletype.new.ahead }) }
{
    match call {
        WireCall::Tell(text) => write_line(teletype, terminal, &text),
        WireCall::Ask {
            title,
            backup,
            shown,
        } => hold(alloc, teletype, terminal, &title, backup, &shown),
    }
}

// Writes a line that is told.
fn write_line<T: Link>(
    teletype: &mut Teletype,
    terminal: &mut T,
    text: &Text,
) -> Result<Response, AnswerBreak>
    ensures { ComesTo (WireCall.Tell text.now) (record { link = T.link terminal.old; ahead = teletype.old.ahead })
        result (record { link = T.link terminal.new; ahead = teletype.new.ahead }) }
{
    match teletype.tell(terminal, text) {
        Ok(()) => Ok(Response::Silent),
        Err(error) => Err(break_at(error)),
    }
}

// Holds a dialogue, whose answers are the reply.
fn hold<T: Link>(
    alloc: Global,
    teletype: &mut Teletype,
    terminal: &mut T,
    title: &Text,
    backup: bool,
    shown: &List<Shown>,
) -> Result<Response, AnswerBreak>
    ensures { ComesTo (WireCall.Ask title.now backup shown.now) (record { link = T.link terminal.old; ahead = teletype.old.ahead })
        result (record { link = T.link terminal.new; ahead = teletype.new.ahead }) }
{
    match teletype.ask(terminal, shown, backup, title) {
        Ok(asked) => reply(alloc, &asked),
        Err(error) => Err(break_at(error)),
    }
}

// The reply of a dialogue that came to this.
fn reply(alloc: Global, asked: &Asked) -> Result<Response, AnswerBreak>
    ensures { MatchResult result (λ did. did ≡ Response.Replied 0 (reply_text asked.now)) (λ error. error ≡ AnswerBreak.OutOfMemory) }
{
    let text = print_answers(alloc, asked)?;
    Ok(Response::Replied { code: 0, text })
}

// The same line.
fn line_copy(line: &Line) -> Mem<Line>
    ensures { IfOk result (λ copy. copy ≡ line.now) }
{
    match line {
        Line::Whole(text) => Ok(Line::Whole(text.copy()?)),
        Line::TooLong => Ok(Line::TooLong),
    }
}

// Why a call isn't heeded at which a call of the terminal had this answer.
fn break_at(error: LinkError) -> AnswerBreak
    ensures { result ≡ break_of error }
{
    match error {
        LinkError::Failed => AnswerBreak::Term,
        LinkError::OutOfMemory => AnswerBreak::OutOfMemory,
    }
}
