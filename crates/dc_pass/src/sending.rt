// What of a request is sent, and which answers it has then.
ghost use Rattle.std.specs.Prelude.{◌≡◌, ◌&&◌, ◌++◌, ◌∷◌, [], drop, List as Listed, map as each, IfOk, codes};
ghost use Rattle.std.specs.List.{list_all};
ghost use Rattle.dc_pass.specs.Wire.{fits, wire_line, heading_lines, choice_lines};
ghost use Rattle.dc_pass.specs.Passing.{is_sent as is_sent_of, sent_questions as sent_questions_of, sent_title as sent_title_of, tell_text, spread as spread_of, first_answer as first_answer_of, asked_by as asked_by_of};
ghost use Rattle.dc_frontend.specs.declared.shown.Shown.{Shown as ShownOf};

use crate::lines::append_line;
use dc_frontend::Shown;
use dc_teletype::{Answer, Asked};
use dc_text::{List, Mem, Text};
use dc_words::MAX_LINE;
use std::alloc::Global;

// The questions that are sent.
pub(crate) fn sent_questions(alloc: Global, shown: &[Shown]) -> Mem<List<Shown>>
    ensures { IfOk result (λ sent. sent ≡ sent_questions_of shown.now) }
{
    let mut sent = List::new(alloc);
    for question in shown {
        if is_sent(alloc, question)? {
            sent.push(copy(question)?)?;
        }
    }
    Ok(sent)
}

fn copy(shown: &Shown) -> Mem<Shown>
    ensures { IfOk result (λ copy. copy ≡ shown.now) }
{
    Ok(Shown {
        name: shown.name.copy()?,
        kind: shown.kind,
        description: shown.description.copy()?,
        extended: shown.extended.copy()?,
        choices: shown.choices.copy()?,
        labels: shown.labels.copy()?,
        value: shown.value.copy()?,
    })
}

// Whether none of the lines of the question is too long.
fn is_sent(alloc: Global, shown: &Shown) -> Mem<bool>
    ensures { IfOk result (λ is. is ≡ is_sent_of shown.now) }
{
    Ok(
        is_heading_sent(alloc, shown)?
            && are_choices_sent(alloc, shown.choices.as_slice(), shown.labels.as_slice())?
            && fits_line(alloc, b"value", shown.value.bytes())?,
    )
}

fn is_heading_sent(alloc: Global, shown: &Shown) -> Mem<bool>
    ensures { IfOk result (λ are. are ≡ list_all fits
        (heading_lines shown.now.name shown.now.kind shown.now.description shown.now.extended)) }
{
    Ok(
        fits_line(alloc, b"question", shown.name.bytes())?
            && fits_line(alloc, b"kind", shown.kind.word())?
            && fits_line(alloc, b"description", shown.description.bytes())?
            && fits_line(alloc, b"extended", shown.extended.bytes())?,
    )
}

fn are_choices_sent(alloc: Global, choices: &[Text], labels: &[Text]) -> Mem<bool>
    ensures { IfOk result (λ are. are ≡ list_all fits (choice_lines choices.now labels.now)) }
{
    let mut choices = choices;
    let mut labels = labels;
    while let [choice, other_choices @ ..] = choices
        && let [label, other_labels @ ..] = labels
    {
        if !is_pair_sent(alloc, choice, label)? {
            return Ok(false);
        }
        choices = other_choices;
        labels = other_labels;
    }
    Ok(true)
}

fn is_pair_sent(alloc: Global, choice: &Text, label: &Text) -> Mem<bool>
    ensures { IfOk result (λ is. is ≡ (fits (wire_line (codes "choice") choice.now) && fits (wire_line (codes "label") label.now))) }
{
    Ok(fits_line(alloc, b"choice", choice.bytes())? && fits_line(alloc, b"label", label.bytes())?)
}

// Whether the line isn't too long.
fn fits_line(alloc: Global, word: &[u8], text: &[u8]) -> Mem<bool>
    ensures { IfOk result (λ is. is ≡ fits (wire_line word.now text.now)) }
{
    let mut line = Text::new(alloc);
    append_line(alloc, &mut line, word, text)?;
    Ok(line.bytes().len() <= MAX_LINE + 1)
}

// The title as it is sent.
pub(crate) fn sent_title(alloc: Global, title: &Text) -> Mem<Text>
    ensures { IfOk result (λ sent. sent ≡ sent_title_of title.now) }
{
    if fits_line(alloc, b"title", title.bytes())? {
        title.copy()
    } else {
        Ok(Text::new(alloc))
    }
}

// What the dialogue came to, by what was heard.
pub(crate) fn answers_by(alloc: Global, shown: &[Shown], heard: Option<Asked>) -> Mem<Asked>
    ensures { IfOk result (λ asked. asked ≡ asked_by_of shown.now heard) }
{
    match heard {
        None => Ok(Asked::Answers(kept(alloc, shown)?)),
        Some(Asked::Back) => Ok(Asked::Back),
        Some(Asked::Answers(answers)) => Ok(Asked::Answers(spread(alloc, shown, &answers)?)),
    }
}

// All values are kept.
fn kept(alloc: Global, shown: &[Shown]) -> Mem<List<Answer>>
    ensures { IfOk result (λ answers. answers ≡ each (λ _. Answer.Keep) shown.now) }
{
    let mut answers = List::new(alloc);
    for _question in shown {
        answers.push(Answer::Keep)?;
    }
    Ok(answers)
}

// The answers to all questions, where those that were sent have these.
fn spread(alloc: Global, shown: &[Shown], answers: &List<Answer>) -> Mem<List<Answer>>
    ensures { IfOk result (λ all. all ≡ spread_of shown.now answers.now) }
{
    let mut all = List::new(alloc);
    let mut rest = answers.as_slice();
    for question in shown {
        let (answer, others) = answer_to(alloc, question, rest)?;
        all.push(answer)?;
        rest = others;
    }
    Ok(all)
}

// The answer to a question, and those that are left then.
fn answer_to<'a>(
    alloc: Global,
    question: &Shown,
    answers: &'a [Answer],
) -> Mem<(Answer, &'a [Answer])>
    ensures { IfOk result (λ r. (others : Listed ShownOf) → spread_of (question.now ∷ others) answers.now ≡ r.0 ∷ spread_of others r.1.now) }
{
    if is_sent(alloc, question)? {
        Ok((first_answer(answers)?, behind_first(answers)))
    } else {
        Ok((Answer::Keep, answers))
    }
}

fn first_answer(answers: &[Answer]) -> Mem<Answer>
    ensures { IfOk result (λ answer. answer ≡ first_answer_of answers.now) }
{
    match answers {
        [] => Ok(Answer::Keep),
        [first, ..] => copy_answer(first),
    }
}

fn copy_answer(answer: &Answer) -> Mem<Answer>
    ensures { IfOk result (λ copy. copy ≡ answer.now) }
{
    match answer {
        Answer::Keep => Ok(Answer::Keep),
        Answer::Value(value) => Ok(Answer::Value(value.copy()?)),
    }
}

fn behind_first(answers: &[Answer]) -> &[Answer]
    ensures { result.now ≡ drop 1 answers.now }
{
    match answers {
        [] => answers,
        [_, rest @ ..] => rest,
    }
}

// A line that is told, as it is sent: nothing, where it would be too long.
pub(crate) fn told_line(alloc: Global, line: &Text) -> Mem<Text>
    ensures { IfOk result (λ text. text ≡ tell_text line.now) }
{
    let mut text = Text::new(alloc);
    if fits_line(alloc, b"tell", line.bytes())? {
        append_line(alloc, &mut text, b"tell", line.bytes())?;
    }
    Ok(text)
}
