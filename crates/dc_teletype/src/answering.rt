// What a line answers.
ghost use Rattle.std.specs.Prelude.{◌≡◌, ◌<◌, ◌++◌, ℕ, length, map as each, position, IfOk};
ghost use Rattle.std.specs.List.{list_all};
ghost use Rattle.dc_text.specs.Bytes.{lower};
ghost use Rattle.dc_words.specs.Words.{some_word};
ghost use Rattle.dc_teletype.specs.Keys.{is_one_of as is_one_of_words};
ghost use Rattle.dc_teletype.specs.Answers.{answer_to, text_answer, without_return as without_return_of, boolean_answer, yes_words, no_words, select_answer, multiselect_answer, are_some_of as are_some_of_these, parts as parts_of, parted_words as parted_words_of};

use crate::keys::{all_beside, beside, is_one_of, numerals};
use dc_frontend::Shown;
use dc_template::Kind;
use dc_text::bytes::{is_space, trim};
use dc_text::{List, Mem, Text};
use dc_words::choices::join_choices;
use std::alloc::Global;

/// What a line answers.
#[derive(Drop)]
pub enum Reading {
    /// The user goes back to an earlier question.
    Back,
    /// The value stays.
    Keep,
    /// The question gets this value.
    Value(Text),
    /// The line is no answer.
    Unusable,
}

/// What the line answers to the question, where the confmodule can back up or not (debconf-devel(7), GO). A line is read without the
/// whitespace at its ends, but for the value of a string. A boolean is answered by `y` or `n`, and more words, a select by the number of
/// a choice or its label, and a multiselect by some numbers, or `none`.
pub fn read_answer(alloc: Global, shown: &Shown, backup: bool, line: &[u8]) -> Mem<Reading>
    ensures { IfOk result (λ reading. reading ≡ answer_to shown.now backup line.now) }
{
    let answer = trim(line);
    if backup && answer == b"<".as_slice() {
        return Ok(Reading::Back);
    }
    if answer.is_empty() {
        return Ok(Reading::Keep);
    }
    match shown.kind {
        Kind::Str | Kind::Password => read_text(alloc, line, answer),
        Kind::Bool => read_boolean(alloc, answer),
        Kind::Select => read_select(alloc, shown, answer),
        Kind::Multiselect => read_multiselect(alloc, &shown.choices, answer),
        _ => Ok(Reading::Keep),
    }
}

// Two quotes are the empty value, and any other line is the value.
fn read_text(alloc: Global, line: &[u8], answer: &[u8]) -> Mem<Reading>
    ensures { IfOk result (λ reading. reading ≡ text_answer line.now answer.now) }
{
    if answer == b"\"\"".as_slice() {
        Ok(Reading::Value(Text::new(alloc)))
    } else {
        Ok(Reading::Value(Text::from_bytes(alloc, without_return(line))?))
    }
}

// The line without one carriage return at its end.
fn without_return(line: &[u8]) -> &[u8]
    ensures { result.now ≡ without_return_of line.now }
{
    line.strip_suffix(b"\r".as_slice()).unwrap_or(line)
}

fn read_boolean(alloc: Global, answer: &[u8]) -> Mem<Reading>
    ensures { IfOk result (λ reading. reading ≡ boolean_answer (each lower answer.now)) }
{
    let word = Text::lowered(alloc, answer)?;
    if is_yes(word.bytes()) {
        Ok(Reading::Value(Text::from_bytes(alloc, b"true")?))
    } else if is_no(word.bytes()) {
        Ok(Reading::Value(Text::from_bytes(alloc, b"false")?))
    } else {
        Ok(Reading::Unusable)
    }
}

fn is_yes(word: &[u8]) -> bool
    ensures { result ≡ is_one_of_words yes_words word.now }
{
    word == b"y".as_slice() || word == b"yes".as_slice() || word == b"true".as_slice()
}

fn is_no(word: &[u8]) -> bool
    ensures { result ≡ is_one_of_words no_words word.now }
{
    word == b"n".as_slice() || word == b"no".as_slice() || word == b"false".as_slice()
}

// A number, else a label, stands for its choice.
fn read_select(alloc: Global, shown: &Shown, answer: &[u8]) -> Mem<Reading>
    ensures { IfOk result (λ reading. reading ≡ select_answer shown.now.choices shown.now.labels answer.now) }
{
    let choices = shown.choices.as_slice();
    let numerals = numerals(alloc, choices.len())?;
    let by_number = beside(numerals.as_slice(), choices, answer);
    match by_number.or(beside(shown.labels.as_slice(), choices, answer)) {
        Some(choice) => Ok(Reading::Value(choice.copy()?)),
        None => Ok(Reading::Unusable),
    }
}

// `none` is the empty value, and numbers stand for their choices.
fn read_multiselect(alloc: Global, choices: &List<Text>, answer: &[u8]) -> Mem<Reading>
    ensures { IfOk result (λ reading. reading ≡ multiselect_answer choices.now answer.now) }
{
    if answer == b"none".as_slice() {
        return Ok(Reading::Value(Text::new(alloc)));
    }
    let numerals = numerals(alloc, choices.len())?;
    let words = parted_words(alloc, answer)?;
    if are_some_of(&numerals, &words) {
        let chosen = all_beside(
            alloc,
            numerals.as_slice(),
            choices.as_slice(),
            words.as_slice(),
        )?;
        Ok(Reading::Value(join_choices(alloc, &chosen)?))
    } else {
        Ok(Reading::Unusable)
    }
}

// Some words, and all of them among the others.
fn are_some_of(others: &List<Text>, words: &List<Text>) -> bool
    ensures { result ≡ are_some_of_these others.now words.now }
{
    !words.as_slice().is_empty() && are_all_of(others.as_slice(), words.as_slice())
}

fn are_all_of(others: &[Text], words: &[Text]) -> bool
    ensures { result ≡ list_all (is_one_of_words others.now) words.now }
{
    words.iter().all(|word| is_one_of(others, word.bytes()))
}

// The words that whitespace and commas part.
fn parted_words(alloc: Global, answer: &[u8]) -> Mem<List<Text>>
    ensures { IfOk result (λ words. words ≡ parted_words_of answer.now) }
{
    let mut words = List::new(alloc);
    let mut rest = answer;
    while !rest.is_empty() {
        let (word, after) = split_word(rest);
        if !word.is_empty() {
            words.push(Text::from_bytes(alloc, word)?)?;
        }
        rest = after;
    }
    Ok(words)
}

// What stands before the first whitespace or comma, and what stands after it.
fn split_word(answer: &[u8]) -> (&[u8], &[u8])
    requires { 0 < length answer.now }
    ensures words { parted_words_of answer.now ≡ some_word result.0.now ++ parted_words_of result.1.now }
    ensures shorter { length result.1.now < length answer.now }
{
    match place_of_parting(answer) {
        Some(at) => (&answer[..at], &answer[at + 1..]),
        None => (answer, &answer[answer.len()..]),
    }
}

fn place_of_parting(answer: &[u8]) -> Option<usize>
    ensures { result ≡ position parts_of answer.now }
{
    answer.iter().position(|byte| parts(*byte))
}

// Whether the byte parts words.
fn parts(byte: u8) -> bool
    ensures { result ≡ parts_of byte }
{
    is_space(byte) || byte == b','
}
