// The wire, as a session has it.
ghost use Rattle.std.specs.Prelude.{◌≡◌, ◌&&◌, [], false, drop};
ghost use Rattle.dc_pass.specs.Passing.{Comes, Hears, Requests, Asks, Tells, seen as seen_as, is_sent as is_sent_of, sent_questions as sent_questions_of, sent_title as sent_title_of, spread as spread_of, asked_by as asked_by_of};
ghost use Rattle.dc_pass.specs.Reading.{replies};
ghost use Rattle.dc_text.specs.Bytes.{is_nil};

use crate::calls::WireError;
use crate::printing::print_request;
use crate::replies::{ReplyStep, read_reply_line};
use crate::sending::{answers_by, sent_questions, sent_title, told_line};
use dc_frontend::Shown;
use dc_outside::{Link, LinkError};
use dc_teletype::{Answer, Asked, TerminalLine, TerminalLines};
use dc_text::{List, Mem, OutOfMemory, Text};
use dc_words::Line;
use std::alloc::Global;

/// Why a request has no answers.
#[derive(Clone, Copy, Debug, PartialEq, Eq)]
pub enum PassError {
    /// The link failed.
    Failed,
    /// This one of the lines that came is unreadable.
    Bad { line: u64 },
    OutOfMemory,
}

impl From<OutOfMemory> for PassError {
    ghost use Rattle.std.specs.Prelude.{◌≡◌};
    ghost use Rattle.dc_pass.specs.declared.pass.PassError.TheVariants.{OutOfMemory};

    ghost from_gives = { λ _ e. e ≡ OutOfMemory };

    fn from(_: OutOfMemory) -> Self {
        PassError::OutOfMemory
    }
}

// The next line, which is counted.
fn next_line<L: Link>(
    ahead: &mut TerminalLines,
    link: &mut L,
    got: &mut u64,
) -> Result<Option<Line>, PassError>
    ensures { Comes got.old (record { link = L.link link.old; ahead = ahead.old }) (record { link = L.link link.new; ahead = ahead.new }) result got.new }
{
    match ahead.next(link) {
        Err(LinkError::Failed) => Err(PassError::Failed),
        Err(LinkError::OutOfMemory) => Err(PassError::OutOfMemory),
        Ok(None) => Ok(None),
        Ok(Some(line)) => {
            *got = got.saturating_add(1);
            Ok(Some(seen(line)))
        }
    }
}

// A line as a reader takes it.
fn seen(line: TerminalLine) -> Line
    ensures { result ≡ seen_as line }
{
    match line {
        TerminalLine::Whole(bytes) => Line::Whole(bytes),
        TerminalLine::Cut => Line::TooLong,
    }
}

// Hears the reply to these questions, `None` where the input ends before it is whole.
fn hear<L: Link>(
    alloc: Global,
    ahead: &mut TerminalLines,
    link: &mut L,
    got: &mut u64,
    shown: &[Shown],
    backup: bool,
) -> Result<Option<Asked>, PassError>
    ensures { Hears (replies backup shown.now) got.old
        (record { link = L.link link.old; ahead = ahead.old }) (record { link = L.link link.new; ahead = ahead.new }) result got.new }
{
    let _before = *got;
    let mut answers = List::new(alloc);
    let mut left = shown;
    loop {
        let line = match next_line(ahead, link, got) {
            Err(error) => return Err(error),
            Ok(None) => return Ok(None),
            Ok(Some(line)) => line,
        };
        let first = may_go_back(backup, &answers);
        match read_reply_line(alloc, first, left, line) {
            Ok(ReplyStep::Answered(answer)) => answers.push(answer)?,
            Ok(ReplyStep::Done) => return Ok(Some(Asked::Answers(answers))),
            Ok(ReplyStep::Back) => return Ok(Some(Asked::Back)),
            Err(WireError::Bad) => return Err(PassError::Bad { line: *got }),
            Err(WireError::OutOfMemory) => return Err(PassError::OutOfMemory),
        }
        left = others(left);
    }
}

// Whether the user can go back before any of these answers.
fn may_go_back(backup: bool, answers: &List<Answer>) -> bool
    ensures { result ≡ (backup && is_nil answers.now) }
{
    backup && answers.as_slice().is_empty()
}

// The questions behind the first.
fn others(shown: &[Shown]) -> &[Shown]
    ensures { result.now ≡ drop 1 shown.now }
{
    match shown {
        [] => shown,
        [_, rest @ ..] => rest,
    }
}

// Asks these questions, of which there are some, and hears the reply.
fn request<L: Link>(
    alloc: Global,
    ahead: &mut TerminalLines,
    link: &mut L,
    got: &mut u64,
    title: &Text,
    backup: bool,
    sent: &List<Shown>,
) -> Result<Option<Asked>, PassError>
    requires { is_nil sent.now ≡ false }
    ensures { Requests backup title.now sent.now got.old
        (record { link = L.link link.old; ahead = ahead.old }) (record { link = L.link link.new; ahead = ahead.new }) result got.new }
{
    let text = print_request(alloc, title, backup, sent)?;
    match link.write(text.bytes()) {
        Err(LinkError::Failed) => Err(PassError::Failed),
        Err(LinkError::OutOfMemory) => Err(PassError::OutOfMemory),
        Ok(()) => hear(alloc, ahead, link, got, sent.as_slice(), backup),
    }
}

/// Asks the questions over the wire, under the title, with what came there and isn't used yet. One of which a line would be too long isn't
/// sent, and keeps its value; where the input ends before the reply is whole, all keep theirs. The lines that come are counted.
pub fn ask_on_wire<L: Link>(
    alloc: Global,
    ahead: &mut TerminalLines,
    link: &mut L,
    got: &mut u64,
    shown: &List<Shown>,
    backup: bool,
    title: &Text,
) -> Result<Asked, PassError>
    ensures { Asks backup title.now shown.now got.old
        (record { link = L.link link.old; ahead = ahead.old }) (record { link = L.link link.new; ahead = ahead.new }) result got.new }
{
    let sent = sent_questions(alloc, shown.as_slice())?;
    if sent.as_slice().is_empty() {
        return Ok(answers_by(alloc, shown.as_slice(), None)?);
    }
    let title = sent_title(alloc, title)?;
    match request(alloc, ahead, link, got, &title, backup, &sent) {
        Err(error) => Err(error),
        Ok(heard) => Ok(answers_by(alloc, shown.as_slice(), heard)?),
    }
}

/// Tells a line over the wire. One that would be too long isn't sent.
pub fn tell_on_wire<L: Link>(alloc: Global, link: &mut L, line: &Text) -> Result<(), LinkError>
    ensures { Tells line.now (L.link link.old) (L.link link.new) result }
{
    let told = told_line(alloc, line)?;
    if told.bytes().is_empty() {
        return Ok(());
    }
    link.write(told.bytes())
}

/// The wire, as a session has it.
#[derive(Drop)]
pub struct Pass {
    alloc: Global,
    /// What came on the wire and isn't used yet.
    pub ahead: TerminalLines,
    /// How many lines came in this run.
    pub got: u64,
}

impl Pass {
    /// A wire on which nothing came yet.
    pub fn new(alloc: Global) -> Pass
        ensures ahead { result.ahead ≡ record { held = []; has_ended = false } }
        ensures got { result.got ≡ 0 }
    {
        Pass {
            alloc,
            ahead: TerminalLines::new(alloc),
            got: 0,
        }
    }

    /// Asks the questions, under the title. One of which a line would be too long isn't sent, and keeps its value; where the input ends
    /// before the reply is whole, all keep theirs.
    pub fn ask<L: Link>(
        &mut self,
        link: &mut L,
        shown: &List<Shown>,
        backup: bool,
        title: &Text,
    ) -> Result<Asked, PassError>
        ensures { Asks backup title.now shown.now self.old.got
            (record { link = L.link link.old; ahead = self.old.ahead }) (record { link = L.link link.new; ahead = self.new.ahead }) result self.new.got }
    {
        ask_on_wire(
            self.alloc,
            &mut self.ahead,
            link,
            &mut self.got,
            shown,
            backup,
            title,
        )
    }

    /// Tells a line. One that would be too long isn't sent.
    pub fn tell<L: Link>(&mut self, link: &mut L, line: &Text) -> Result<(), LinkError>
        ensures tells { Tells line.now (L.link link.old) (L.link link.new) result }
        ensures ahead { self.new.ahead ≡ self.old.ahead }
        ensures got { self.new.got ≡ self.old.got }
    {
        tell_on_wire(self.alloc, link, line)
    }
}
