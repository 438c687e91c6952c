// What is told on standard error, in pieces for which no memory is taken.
ghost use Rattle.std.specs.Prelude.{◌≡◌, ◌∷◌, ◌++◌, [], decimal};
ghost use Rattle.dc_text.specs.Ascii.{newline};
ghost use Rattle.dc_session.specs.Refusals.{refusal};
ghost use Rattle.dc_run.specs.EndLines.{end_line, place_text, HasSaid};
ghost use Rattle.dc_run.specs.Inside.{end_text, told_line};
ghost use Rattle.dc_run.specs.Jobs.{named_lines, unsaid_lines};
ghost use Rattle.dc_run.specs.Kinds.{kind_word as kind_word_of};

use crate::outcome::{End, PatternAt};
use dc_conf::ConfKind;
use dc_outside::{Link, tell};
use dc_question::QuestionError;
use dc_session::FileEnd;
use dc_text::{Name, Text};
use itoa::Buffer;

// Says some bytes. A write that fails is passed over.
#[tactic(auto, using(crate::proofs::Saying::written_said))]
fn say<E: Link>(err: &mut E, bytes: &[u8])
    ensures { HasSaid bytes.now (E.link err.old) (E.link err.new) }
{
    let _ = err.write(bytes);
}

/// Tells lines in one write, where there are any.
#[tactic(auto, using(crate::proofs::Saying::told_said))]
pub fn tell_text<E: Link>(err: &mut E, lines: &Text)
    ensures { HasSaid lines.now (E.link err.old) (E.link err.new) }
{
    tell(err, lines.bytes())
}

fn say_number<E: Link>(err: &mut E, number: u64)
    ensures { HasSaid (decimal number) (E.link err.old) (E.link err.new) }
{
    let mut buffer = Buffer::new();
    say(err, buffer.format(number).as_bytes());
}

fn say_place<E: Link>(err: &mut E, at: PatternAt)
    ensures { HasSaid (place_text at) (E.link err.old) (E.link err.new) }
{
    match at {
        PatternAt::Database(place) => {
            say(err, b", database ");
            say_number(err, place as u64)
        }
        PatternAt::Word(word) => {
            say(err, b", word ");
            say_number(err, word as u64)
        }
    }
}

/// Tells of the end of a run on standard error, in one line, unless it did all that it was to do.
#[tactic(auto, using(crate::proofs::Saying::none_said))]
pub fn tell_end<E: Link>(err: &mut E, end: &End)
    ensures { HasSaid (end_line end.now) (E.link err.old) (E.link err.new) }
{
    match end {
        End::Done => {}
        End::Usage { word } => {
            say(err, b"dckit: usage, word ");
            say_number(err, *word as u64);
            say(err, b"\n")
        }
        End::ConfRefused { line, kind } => {
            say(err, b"dckit: configuration, line ");
            say_number(err, *line);
            say(err, b": ");
            say(err, kind_word(*kind));
            say(err, b"\n")
        }
        End::BadPattern { at } => {
            say(err, b"dckit: bad pattern");
            say_place(err, *at);
            say(err, b"\n")
        }
        End::PatternTooLarge { at } => {
            say(err, b"dckit: pattern too large");
            say_place(err, *at);
            say(err, b"\n")
        }
        End::Damaged { path, line } => {
            say(err, b"dckit: ");
            say(err, path.bytes());
            say(err, b": damaged, line ");
            say_number(err, *line);
            say(err, b"\n")
        }
        End::OutOfMemory => say(err, b"dckit: out of memory\n"),
        End::FilesFault { path } => {
            say(err, b"dckit: ");
            say(err, path.bytes());
            say(err, b": read or write failed\n")
        }
        End::LinkFault => say(err, b"dckit: link failed\n"),
        End::TermFault => say(err, b"dckit: terminal failed\n"),
        End::ChildFault => say(err, b"dckit: child failed\n"),
        End::TooLong => say(err, b"dckit: input too long\n"),
        End::BadWire { line } => {
            say(err, b"dckit: other end, line ");
            say_number(err, *line);
            say(err, b": unreadable\n")
        }
    }
}

/// Tells of a template file that isn't loaded why, in one line.
#[tactic(auto, using(crate::proofs::Saying::none_said))]
pub fn tell_file<E: Link>(err: &mut E, path: &Text, ended: &FileEnd)
    ensures { HasSaid (told_line (end_text path.now ended.now)) (E.link err.old) (E.link err.new) }
{
    match ended {
        FileEnd::Loaded | FileEnd::Unreadable => {}
        FileEnd::Missing => {
            say(err, path.bytes());
            say(err, b": no such file");
            say(err, b"\n")
        }
        FileEnd::Faulty { line } => {
            say(err, path.bytes());
            say(err, b": bad template, line ");
            say_number(err, *line);
            say(err, b"\n")
        }
        FileEnd::Refused(error) => {
            say_refusal(err, error);
            say(err, b"\n")
        }
    }
}

/// Tells of the questions that can't be said in lines of selections, each in a line.
pub fn tell_unsaid<E: Link>(err: &mut E, names: &[Name])
    ensures { HasSaid (unsaid_lines names.now) (E.link err.old) (E.link err.new) }
{
    tell_names(err, names, b" can't be said\n")
}

// Says each name, and behind it these words.
fn tell_names<E: Link>(err: &mut E, names: &[Name], words: &[u8])
    ensures { HasSaid (named_lines words.now names.now) (E.link err.old) (E.link err.new) }
{
    match names {
        [] => {}
        [name, others @ ..] => {
            say(err, name.bytes());
            say(err, words);
            tell_names(err, others, words)
        }
    }
}

fn say_refusal<E: Link>(err: &mut E, error: &QuestionError)
    ensures { HasSaid (refusal [] error.now).text (E.link err.old) (E.link err.new) }
{
    match error {
        QuestionError::NoQuestion { name } => {
            say(err, name.bytes());
            say(err, b" doesn't exist")
        }
        QuestionError::NoTemplate { name } => {
            say(err, b"no template for ");
            say(err, name.bytes())
        }
        QuestionError::CantChange { name } => {
            say(err, name.bytes());
            say(err, b" can't be changed")
        }
        QuestionError::Twice { name } => {
            say(err, name.bytes());
            say(err, b" has another template")
        }
        QuestionError::NoField | QuestionError::OutOfMemory => say(err, b" doesn't exist"),
    }
}

fn kind_word(kind: ConfKind) -> &'static [u8]
    ensures { result.now ≡ kind_word_of kind }
{
    match kind {
        ConfKind::NoColon => b"NoColon",
        ConfKind::Twice => b"Twice",
        ConfKind::TooMany => b"TooMany",
        ConfKind::NoConfig => b"NoConfig",
        ConfKind::NoTemplates => b"NoTemplates",
        ConfKind::NoName => b"NoName",
        ConfKind::NoDriver => b"NoDriver",
        ConfKind::UnknownDriver => b"UnknownDriver",
        ConfKind::MissingField => b"MissingField",
        ConfKind::BadValue => b"BadValue",
        ConfKind::SamePlace => b"SamePlace",
        ConfKind::UnknownDatabase => b"UnknownDatabase",
        ConfKind::Cycle => b"Cycle",
        ConfKind::SharedDatabase => b"SharedDatabase",
        ConfKind::PipeUse => b"PipeUse",
    }
}
