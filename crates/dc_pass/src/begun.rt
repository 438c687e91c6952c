// A call as far as its lines came.
ghost use Rattle.std.specs.Prelude.{◌≡◌, ◌&&◌, []};
ghost use Rattle.std.specs.Str.{bytes_eq};
ghost use Rattle.dc_pass.specs.Machine.{Gives, step_by, said_step, first_step, titled_step, asking_step, asks as asks_of, is_between as is_between_of};

use crate::calls::{WireCall, WireError};
use crate::lines::{WireLine, read_line};
use crate::question_part::{PartStep, QuestionPart};
use dc_frontend::Shown;
use dc_text::{List, Text};
use dc_words::Line;
use std::alloc::Global;

// A call as far as its lines came.
#[derive(Drop)]
pub(crate) enum Begun {
    // No line came.
    Nothing,
    Titled(Text),
    // Whole questions, and a part of one.
    Asking {
        title: Text,
        backup: bool,
        shown: List<Shown>,
        part: QuestionPart,
    },
}

// What one more line makes of it.
#[derive(Drop)]
pub(crate) enum Step {
    Begins(Begun),
    Completes(WireCall),
}

impl Begun {
    // Adds one more line, as it came.
    pub(crate) fn add(self, alloc: Global, line: Line) -> Result<Step, WireError>
        ensures { Gives result (step_by self line) }
    {
        match line {
            Line::TooLong => Err(WireError::Bad),
            Line::Whole(bytes) => match read_line(alloc, bytes.bytes())? {
                Some(said) => self.add_said(alloc, said),
                None => Err(WireError::Bad),
            },
        }
    }

    // Adds what one more line says.
    fn add_said(self, alloc: Global, said: WireLine) -> Result<Step, WireError>
        ensures { Gives result (said_step self said) }
    {
        match self {
            Begun::Nothing => add_first(said),
            Begun::Titled(title) => add_backup(alloc, title, said),
            Begun::Asking {
                title,
                backup,
                shown,
                part,
            } => add_asking(alloc, title, backup, shown, part, said),
        }
    }
}

fn add_first(said: WireLine) -> Result<Step, WireError>
    ensures { Gives result (first_step said.word said.text) }
{
    let WireLine { word, text } = said;
    if word.bytes() == b"title".as_slice() {
        Ok(Step::Begins(Begun::Titled(text)))
    } else if word.bytes() == b"tell".as_slice() {
        Ok(Step::Completes(WireCall::Tell(text)))
    } else {
        Err(WireError::Bad)
    }
}

fn add_backup(alloc: Global, title: Text, said: WireLine) -> Result<Step, WireError>
    ensures { Gives result (titled_step title said.word said.text) }
{
    if is_said(&said, b"backup", b"true") {
        Ok(Step::Begins(asking(alloc, title, true)))
    } else if is_said(&said, b"backup", b"false") {
        Ok(Step::Begins(asking(alloc, title, false)))
    } else {
        Err(WireError::Bad)
    }
}

// A request for which no question came yet.
fn asking(alloc: Global, title: Text, backup: bool) -> Begun
    ensures { result ≡ Begun.Asking title backup [] QuestionPart.Nothing }
{
    Begun::Asking {
        title,
        backup,
        shown: List::new(alloc),
        part: QuestionPart::Nothing,
    }
}

// Whether the line says this.
fn is_said(said: &WireLine, word: &[u8], text: &[u8]) -> bool
    ensures { result ≡ (bytes_eq said.now.word word.now && bytes_eq said.now.text text.now) }
{
    said.word.bytes() == word && said.text.bytes() == text
}

fn add_asking(
    alloc: Global,
    title: Text,
    backup: bool,
    shown: List<Shown>,
    part: QuestionPart,
    said: WireLine,
) -> Result<Step, WireError>
    ensures { Gives result (asking_step title backup shown part said.word said.text) }
{
    if asks(&shown, &part, &said) {
        return Ok(Step::Completes(WireCall::Ask {
            title,
            backup,
            shown,
        }));
    }
    let mut shown = shown;
    let part = match part.add(alloc, said)? {
        PartStep::More(part) => part,
        PartStep::Whole(question) => {
            shown.push(question)?;
            QuestionPart::Nothing
        }
    };
    Ok(Step::Begins(Begun::Asking {
        title,
        backup,
        shown,
        part,
    }))
}

// Whether the line asks the questions, at least one, behind the last of them.
fn asks(shown: &List<Shown>, part: &QuestionPart, said: &WireLine) -> bool
    ensures { result ≡ asks_of shown.now part.now said.now.word said.now.text }
{
    said.word.bytes() == b"ask".as_slice()
        && said.text.bytes().is_empty()
        && !shown.as_slice().is_empty()
        && is_between(part)
}

fn is_between(part: &QuestionPart) -> bool
    ensures { result ≡ is_between_of part.now }
{
    match part {
        QuestionPart::Nothing => true,
        _ => false,
    }
}
