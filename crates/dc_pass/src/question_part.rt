// A question as far as its lines came.
ghost use Rattle.dc_pass.specs.Machine.{Gives, part_step};

use crate::calls::WireError;
use crate::lines::WireLine;
use dc_frontend::Shown;
use dc_template::Kind;
use dc_text::{List, Name, NameRefused, Text};
use std::alloc::Global;

// A question as far as its lines came.
#[derive(Drop)]
pub(crate) enum QuestionPart {
    // No line came.
    Nothing,
    Named(Name),
    OfKind {
        name: Name,
        kind: Kind,
    },
    Described {
        name: Name,
        kind: Kind,
        description: Text,
    },
    // All lines but those of more choices, and of the value.
    Explained(Shown),
    // The label of this choice is to come.
    Chosen {
        shown: Shown,
        choice: Text,
    },
}

// What one more line makes of it.
#[derive(Drop)]
pub(crate) enum PartStep {
    More(QuestionPart),
    Whole(Shown),
}

impl QuestionPart {
    // Adds one more line.
    pub(crate) fn add(self, alloc: Global, line: WireLine) -> Result<PartStep, WireError>
        ensures { Gives result (part_step self line.word line.text) }
    {
        let WireLine { word, text } = line;
        let word = word.bytes();
        match self {
            QuestionPart::Nothing => add_name(alloc, word, text),
            QuestionPart::Named(name) => add_kind(name, word, text),
            QuestionPart::OfKind { name, kind } => add_description(name, kind, word, text),
            QuestionPart::Described {
                name,
                kind,
                description,
            } => add_extended(alloc, name, kind, description, word, text),
            QuestionPart::Explained(shown) => add_choice(shown, word, text),
            QuestionPart::Chosen { shown, choice } => add_label(shown, choice, word, text),
        }
    }
}

fn add_name(alloc: Global, word: &[u8], text: Text) -> Result<PartStep, WireError>
    ensures { Gives result (part_step QuestionPart.Nothing word.now text) }
{
    if word != b"question".as_slice() {
        return Err(WireError::Bad);
    }
    match Name::read(alloc, text.bytes()) {
        Ok(name) => Ok(PartStep::More(QuestionPart::Named(name))),
        Err(NameRefused::Bad) => Err(WireError::Bad),
        Err(NameRefused::OutOfMemory) => Err(WireError::OutOfMemory),
    }
}

fn add_kind(name: Name, word: &[u8], text: Text) -> Result<PartStep, WireError>
    ensures { Gives result (part_step (QuestionPart.Named name) word.now text) }
{
    if word != b"kind".as_slice() {
        return Err(WireError::Bad);
    }
    match Kind::read(text.bytes()) {
        Some(kind) => Ok(PartStep::More(QuestionPart::OfKind { name, kind })),
        None => Err(WireError::Bad),
    }
}

fn add_description(name: Name, kind: Kind, word: &[u8], text: Text) -> Result<PartStep, WireError>
    ensures { Gives result (part_step (QuestionPart.OfKind name kind) word.now text) }
{
    if word != b"description".as_slice() {
        return Err(WireError::Bad);
    }
    Ok(PartStep::More(QuestionPart::Described {
        name,
        kind,
        description: text,
    }))
}

fn add_extended(
    alloc: Global,
    name: Name,
    kind: Kind,
    description: Text,
    word: &[u8],
    text: Text,
) -> Result<PartStep, WireError>
    ensures { Gives result (part_step (QuestionPart.Described name kind description) word.now text) }
{
    if word != b"extended".as_slice() {
        return Err(WireError::Bad);
    }
    Ok(PartStep::More(QuestionPart::Explained(Shown {
        name,
        kind,
        description,
        extended: text,
        choices: List::new(alloc),
        labels: List::new(alloc),
        value: Text::new(alloc),
    })))
}

fn add_choice(shown: Shown, word: &[u8], text: Text) -> Result<PartStep, WireError>
    ensures { Gives result (part_step (QuestionPart.Explained shown) word.now text) }
{
    if word == b"choice".as_slice() {
        return Ok(PartStep::More(QuestionPart::Chosen {
            shown,
            choice: text,
        }));
    }
    if word == b"value".as_slice() {
        let mut shown = shown;
        shown.value = text;
        return Ok(PartStep::Whole(shown));
    }
    Err(WireError::Bad)
}

fn add_label(shown: Shown, choice: Text, word: &[u8], text: Text) -> Result<PartStep, WireError>
    ensures { Gives result (part_step (QuestionPart.Chosen shown choice) word.now text) }
{
    if word != b"label".as_slice() {
        return Err(WireError::Bad);
    }
    let mut shown = shown;
    shown.choices.push(choice)?;
    shown.labels.push(text)?;
    Ok(PartStep::More(QuestionPart::Explained(shown)))
}
