// What each end sends.
ghost use Rattle.std.specs.Prelude.{◌≡◌, ◌∷◌, ◌++◌, [], IfOk, OnOk, map as each};
ghost use Rattle.std.specs.List.{flat_map};
ghost use Rattle.dc_text.specs.Lines.{text_of};
ghost use Rattle.dc_pass.specs.Wire.{request_lines, reply_lines, question_lines, heading_lines, choice_lines, opening_lines, answer_line, sent_answer, sent_reply, backup_word as backup_word_of};

use crate::lines::append_line;
use dc_frontend::Shown;
use dc_teletype::{Answer, Asked};
use dc_text::{List, Mem, Text};
use dc_words::MAX_LINE;
use std::alloc::Global;

/// The lines of a request: the questions are asked, under the title.
pub fn print_request(alloc: Global, title: &Text, backup: bool, shown: &List<Shown>) -> Mem<Text>
    ensures { IfOk result (λ text. text ≡ text_of (request_lines title.now backup shown.now)) }
{
    let mut out = Text::new(alloc);
    print_opening(alloc, &mut out, title, backup)?;
    for question in shown.as_slice() {
        print_question(alloc, &mut out, question)?;
    }
    append_line(alloc, &mut out, b"ask", b"")?;
    Ok(out)
}

fn print_opening(alloc: Global, out: &mut Text, title: &Text, backup: bool) -> Mem<()>
    ensures { OnOk result (out.new ≡ out.old ++ text_of (opening_lines title.now backup)) }
{
    append_line(alloc, out, b"title", title.bytes())?;
    append_line(alloc, out, b"backup", backup_word(backup))
}

fn backup_word(backup: bool) -> &'static [u8]
    ensures { result.now ≡ backup_word_of backup }
{
    if backup { b"true" } else { b"false" }
}

fn print_question(alloc: Global, out: &mut Text, shown: &Shown) -> Mem<()>
    ensures { OnOk result (out.new ≡ out.old ++ text_of (question_lines shown.now)) }
{
    print_heading(alloc, out, shown)?;
    print_choices(
        alloc,
        out,
        shown.choices.as_slice(),
        shown.labels.as_slice(),
    )?;
    append_line(alloc, out, b"value", shown.value.bytes())
}

// Prints what stands before the choices.
fn print_heading(alloc: Global, out: &mut Text, shown: &Shown) -> Mem<()>
    ensures { OnOk result (out.new ≡ out.old
        ++ text_of (heading_lines shown.now.name shown.now.kind shown.now.description shown.now.extended)) }
{
    append_line(alloc, out, b"question", shown.name.bytes())?;
    append_line(alloc, out, b"kind", shown.kind.word())?;
    append_line(alloc, out, b"description", shown.description.bytes())?;
    append_line(alloc, out, b"extended", shown.extended.bytes())
}

// Prints each choice and its label.
fn print_choices(alloc: Global, out: &mut Text, choices: &[Text], labels: &[Text]) -> Mem<()>
    ensures { OnOk result (out.new ≡ out.old ++ text_of (choice_lines choices.now labels.now)) }
{
    let mut choices = choices;
    let mut labels = labels;
    while let [choice, other_choices @ ..] = choices
        && let [label, other_labels @ ..] = labels
    {
        append_line(alloc, out, b"choice", choice.bytes())?;
        append_line(alloc, out, b"label", label.bytes())?;
        choices = other_choices;
        labels = other_labels;
    }
    Ok(())
}

/// The lines of a reply: the answers in order, or that the user goes back. An answer whose line would be too long is sent as though the
/// question kept its value.
pub fn print_answers(alloc: Global, asked: &Asked) -> Mem<Text>
    ensures { IfOk result (λ text. text ≡ text_of (reply_lines (sent_reply asked.now))) }
{
    let mut out = Text::new(alloc);
    match asked {
        Asked::Back => append_line(alloc, &mut out, b"back", b"")?,
        Asked::Answers(answers) => print_list(alloc, &mut out, answers)?,
    }
    Ok(out)
}

// Prints the answers in order, and that they are all.
fn print_list(alloc: Global, out: &mut Text, answers: &List<Answer>) -> Mem<()>
    ensures { OnOk result (out.new ≡ out.old ++ text_of (reply_lines (sent_reply (Asked.Answers answers.now)))) }
{
    for answer in answers.as_slice() {
        print_answer(alloc, out, answer)?;
    }
    append_line(alloc, out, b"done", b"")
}

fn print_answer(alloc: Global, out: &mut Text, answer: &Answer) -> Mem<()>
    ensures { OnOk result (out.new ≡ out.old ++ text_of (answer_line (sent_answer answer.now) ∷ [])) }
{
    match answer {
        Answer::Keep => append_line(alloc, out, b"keep", b""),
        Answer::Value(value) => print_value(alloc, out, value),
    }
}

fn print_value(alloc: Global, out: &mut Text, value: &Text) -> Mem<()>
    ensures { OnOk result (out.new ≡ out.old ++ text_of (answer_line (sent_answer (Answer.Value value.now)) ∷ [])) }
{
    let mut line = Text::new(alloc);
    append_line(alloc, &mut line, b"value", value.bytes())?;
    if line.bytes().len() <= MAX_LINE + 1 {
        out.append(line.bytes())
    } else {
        append_line(alloc, out, b"keep", b"")
    }
}
