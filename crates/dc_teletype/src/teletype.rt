// The dialogue on a terminal.
ghost use Rattle.std.specs.Prelude.{◌≡◌, ◌∷◌, ◌++◌, [], false, codes, IfOk, OnOk, List as Listed};
ghost use Rattle.dc_text.specs.Ascii.{newline};
ghost use Rattle.dc_frontend.specs.declared.shown.Shown.{Shown as ShownOf};
ghost use Rattle.dc_teletype.specs.Dialogue.{opening, Waits, HoldsDialogue, SendsText};
ghost use Rattle.dc_teletype.specs.Prompts.{introduction as introduction_of, prompt as prompt_of};
ghost use Rattle.dc_teletype.specs.TerminalLines.{CallCounts, EndsWell};
ghost use Rattle.dc_teletype.specs.Inside.{Hears, Replies, answer_of as answer_of_reading, is_answered as is_answered_by};
ghost use Rattle.dc_teletype.specs.declared.teletype.Answer.{Answer as AnswerOf};

use crate::answering::{Reading, read_answer};
use crate::prompting::{heading, introduction, prompt};
use crate::terminal::{TerminalLine, TerminalLines};
use dc_frontend::Shown;
use dc_outside::{Link, LinkError};
use dc_text::{List, Mem, Text};
use std::alloc::Global;

/// How many lines that are no answer a question gets. After the last of them it keeps its value.
pub const MAX_UNUSABLE: usize = 64;

/// What a question was answered.
#[derive(Drop)]
pub enum Answer {
    /// It keeps its value.
    Keep,
    Value(Text),
}

/// How a dialogue ended.
#[derive(Drop)]
pub enum Asked {
    /// All questions were answered, in order.
    Answers(List<Answer>),
    /// The user went back.
    Back,
}

/// The frontend that asks on a terminal, line by line (debconf(7), Frontends).
#[derive(Drop)]
pub struct Teletype {
    alloc: Global,
    /// What was typed and isn't used yet.
    pub ahead: TerminalLines,
}

impl Teletype {
    /// A terminal on which nothing was typed yet.
    pub fn new(alloc: Global) -> Teletype
        ensures { result.ahead ≡ record { held = []; has_ended = false } }
    {
        Teletype {
            alloc,
            ahead: TerminalLines::new(alloc),
        }
    }

    /// Holds the dialogue over the questions, under the title. Each is put, and a line answers it; before a line is read, all that
    /// was to be said is written. Where the confmodule can back up, the line `<` ends the dialogue.
    pub fn ask<L: Link>(
        &mut self,
        link: &mut L,
        shown: &List<Shown>,
        backup: bool,
        title: &Text,
    ) -> Result<Asked, LinkError>
        ensures held { HoldsDialogue backup (opening title.now shown.now)
            (record { link = L.link link.old; ahead = self.old.ahead }) (record { link = L.link link.new; ahead = self.new.ahead }) result }
        ensures end { EndsWell self.old.ahead self.new.ahead (L.link link.new).input }
        ensures counts { CallCounts result (L.link link.old).counts (L.link link.new).counts }
        ensures program { (L.link link.new).program ≡ (L.link link.old).program }
    {
        let mut said = heading(self.alloc, title.bytes())?;
        let mut answers = List::new(self.alloc);
        let mut rest = shown.as_slice();
        while let [question, others @ ..] = rest {
            append_question(self.alloc, &mut said, question)?;
            match hear(
                self.alloc,
                &mut self.ahead,
                link,
                &mut said,
                question,
                backup,
            )? {
                None => {
                    link.write(said.bytes())?;
                    return Ok(Asked::Back);
                }
                Some(answer) => answers.push(answer)?,
            }
            rest = others;
        }
        link.write(said.bytes())?;
        Ok(Asked::Answers(answers))
    }

    /// Writes a line.
    pub fn tell<L: Link>(&mut self, link: &mut L, line: &Text) -> Result<(), LinkError>
        ensures sends { SendsText (line.now ++ newline ∷ []) (L.link link.old) (L.link link.new) result }
        ensures ahead { self.new.ahead ≡ self.old.ahead }
    {
        let mut whole = line.copy()?;
        whole.push(b'\n')?;
        link.write(whole.bytes())
    }
}

// What stands before a question, and its prompt.
fn append_question(alloc: Global, said: &mut Text, question: &Shown) -> Mem<()>
    ensures { OnOk result (said.new ≡ said.old ++ introduction_of question.now ++ prompt_of question.now) }
{
    let introduction = introduction(alloc, question)?;
    let prompt = prompt(alloc, question)?;
    said.append(introduction.bytes())?;
    said.append(prompt.bytes())
}

// Says what is to be said, and hears what the question is answered: `None` where the user goes back. What is to be said then is left.
fn hear<L: Link>(
    alloc: Global,
    ahead: &mut TerminalLines,
    link: &mut L,
    said: &mut Text,
    question: &Shown,
    backup: bool,
) -> Result<Option<Answer>, LinkError>
    ensures heard { (others : Listed ShownOf) (answers : Listed AnswerOf)
        → Hears backup (record { said = said.old; stage = Waits question.now 0 others answers })
        (record { link = L.link link.old; ahead = ahead.old }) (record { link = L.link link.new; ahead = ahead.new }) result others answers }
    ensures said { OnOk result (said.new ≡ newline ∷ []) }
    ensures end { EndsWell ahead.old ahead.new (L.link link.new).input }
    ensures counts { CallCounts result (L.link link.old).counts (L.link link.new).counts }
    ensures program { (L.link link.new).program ≡ (L.link link.old).program }
{
    let mut unusable: usize = 0;
    loop {
        link.write(said.bytes())?;
        let reading = read_reply(alloc, ahead, link, question, backup)?;
        unusable += 1;
        if is_answered(&reading, unusable) {
            *said = Text::from_bytes(alloc, b"\n")?;
            return Ok(answer_of(reading));
        }
        *said = prompt_again(alloc, question)?;
    }
}

// Whether the question has its answer, after so many unusable lines.
fn is_answered(reading: &Reading, unusable: usize) -> bool
    ensures { result ≡ is_answered_by reading.now unusable }
{
    match reading {
        Reading::Unusable => MAX_UNUSABLE <= unusable,
        Reading::Back | Reading::Keep | Reading::Value(_) => true,
    }
}

// The next line, as it is read.
fn read_reply<L: Link>(
    alloc: Global,
    ahead: &mut TerminalLines,
    link: &mut L,
    question: &Shown,
    backup: bool,
) -> Result<Reading, LinkError>
    ensures replied { Replies backup question.now
        (record { link = L.link link.old; ahead = ahead.old }) (record { link = L.link link.new; ahead = ahead.new }) result }
    ensures end { EndsWell ahead.old ahead.new (L.link link.new).input }
    ensures counts { CallCounts result (L.link link.old).counts (L.link link.new).counts }
    ensures program { (L.link link.new).program ≡ (L.link link.old).program }
{
    match ahead.next(link)? {
        None => Ok(Reading::Keep),
        Some(TerminalLine::Cut) => Ok(Reading::Unusable),
        Some(TerminalLine::Whole(line)) => Ok(read_answer(alloc, question, backup, line.bytes())?),
    }
}

// The answer of a line that ends the question, `None` where the user goes back.
fn answer_of(reading: Reading) -> Option<Answer>
    ensures { result ≡ answer_of_reading reading }
{
    match reading {
        Reading::Back => None,
        Reading::Keep | Reading::Unusable => Some(Answer::Keep),
        Reading::Value(value) => Some(Answer::Value(value)),
    }
}

fn prompt_again(alloc: Global, question: &Shown) -> Mem<Text>
    ensures { IfOk result (λ text. text ≡ codes "Please answer again.\n" ++ prompt_of question.now) }
{
    let mut text = Text::from_bytes(alloc, b"Please answer again.\n")?;
    let prompt = prompt(alloc, question)?;
    text.append(prompt.bytes())?;
    Ok(text)
}
