// Lines of selections, and what they say.
ghost use Rattle.std.specs.Prelude.{◌≡◌, ◌≤◌, ◌&&◌, drop, length, position, true, false, IfOk, OnOk};
ghost use Rattle.std.specs.List.{position_or_len};
ghost use Rattle.dc_text.specs.Names.{is_name};
ghost use Rattle.dc_text.specs.Bytes.{drop_front, is_nil, is_space as is_space_of};
ghost use Rattle.dc_preseed.specs.Selections.{IsAnswer, IsSaid, Parts, first_word, behind_word, flag_value as flag_value_of, is_seen as is_seen_of, is_silent as is_silent_of};

use crate::faults::{SelectionError, SelectionFault};
use crate::joining::is_comment;
use dc_template::Kind;
use dc_text::bytes::{is_blank, is_space, trim};
use dc_text::{Name, NameRefused, Text};
use std::alloc::Global;

/// What a line of selections says.
#[derive(Drop)]
pub enum Selection {
    /// That the question, which the owner has too, has this value, as it is written.
    Value {
        owner: Name,
        question: Name,
        kind: Kind,
        value: Text,
    },
    /// That the question's flag `seen` is this.
    Seen {
        question: Name,
        seen: bool,
    },
}

/// What a line of selections says (debconf-set-selections(1)): an owner, a question and a type, parted by whitespace, and behind the
/// type and one byte of whitespace the value. With `seen` for a type, the value is that of the flag. A blank line and a comment,
/// whose first byte past whitespace is `#`, say nothing: `None`. Where the line has a fault, the error is the first of its faults in
/// the order of `SelectionFault`.
pub fn read_selection(alloc: Global, line: &[u8]) -> Result<Option<Selection>, SelectionError>
    ensures { IsAnswer line.now result }
{
    if is_silent(line) {
        return Ok(None);
    }
    let (owner, behind_owner) = split_word(line);
    let (question, behind_question) = split_word(behind_owner);
    let (word, behind_type) = split_word(behind_question);
    let selection = read_parts(alloc, owner, question, word, without_first(behind_type))?;
    Ok(Some(selection))
}

fn is_silent(line: &[u8]) -> bool
    ensures { result ≡ is_silent_of line.now }
{
    is_blank(line) || is_comment(line)
}

// The first word, and what stands behind it.
fn split_word(bytes: &[u8]) -> (&[u8], &[u8])
    ensures word { result.0.now ≡ first_word bytes.now }
    ensures rest { result.1.now ≡ behind_word bytes.now }
{
    let begins = without_gap(bytes);
    let end = word_end(begins);
    (&begins[..end], &begins[end..])
}

// Where the word ends with which the bytes begin.
fn word_end(bytes: &[u8]) -> usize
    ensures within { result ≤ length bytes.now }
    ensures end { result ≡ position_or_len is_space_of bytes.now }
{
    first_space(bytes).unwrap_or(bytes.len())
}

fn first_space(bytes: &[u8]) -> Option<usize>
    ensures { result ≡ position is_space_of bytes.now }
{
    bytes.iter().position(|byte| is_space(*byte))
}

// The bytes without whitespace at the front.
fn without_gap(bytes: &[u8]) -> &[u8]
    ensures { result.now ≡ drop_front is_space_of bytes.now }
{
    let mut rest = bytes;
    while let [first, tail @ ..] = rest
        && is_space(*first)
    {
        rest = tail;
    }
    rest
}

fn without_first(bytes: &[u8]) -> &[u8]
    ensures { result.now ≡ drop 1 bytes.now }
{
    match bytes {
        [] => bytes,
        [_, rest @ ..] => rest,
    }
}

// What the parts of a line say.
fn read_parts(
    alloc: Global,
    owner: &[u8],
    question: &[u8],
    word: &[u8],
    value: &[u8],
) -> Result<Selection, SelectionError>
    ensures { IsSaid (record { owner = owner.now; question = question.now; word = word.now; value = value.now }) result }
{
    if word.is_empty() {
        return Err(SelectionError::Bad(SelectionFault::TooFew));
    }
    match read_names(alloc, owner, question) {
        Ok((owner, question)) => read_named(alloc, owner, question, word, value),
        Err(NameRefused::Bad) => Err(SelectionError::Bad(SelectionFault::BadName)),
        Err(NameRefused::OutOfMemory) => Err(SelectionError::OutOfMemory),
    }
}

fn read_names(alloc: Global, owner: &[u8], question: &[u8]) -> Result<(Name, Name), NameRefused>
    ensures names { IfOk result (λ names. (names.0 ≡ owner.now) × (names.1 ≡ question.now)) }
    ensures ok { OnOk result ((is_name owner.now && is_name question.now) ≡ true) }
    ensures bad { result ≡ Err NameRefused.Bad → (is_name owner.now && is_name question.now) ≡ false }
{
    let owner = Name::read(alloc, owner)?;
    let question = Name::read(alloc, question)?;
    Ok((owner, question))
}

// What the parts of a line say, of which the first two are names.
fn read_named(
    alloc: Global,
    owner: Name,
    question: Name,
    word: &[u8],
    value: &[u8],
) -> Result<Selection, SelectionError>
    requires word { is_nil word.now ≡ false }
    requires names { (is_name owner && is_name question) ≡ true }
    ensures { IsSaid (record { owner = owner; question = question; word = word.now; value = value.now }) result }
{
    if is_seen(word) {
        return match flag_value(value) {
            Some(seen) => Ok(Selection::Seen { question, seen }),
            None => Err(SelectionError::Bad(SelectionFault::BadFlagValue)),
        };
    }
    match Kind::read(word) {
        Some(kind) => {
            let value = Text::from_bytes(alloc, value)?;
            Ok(Selection::Value {
                owner,
                question,
                kind,
                value,
            })
        }
        None => Err(SelectionError::Bad(SelectionFault::BadType)),
    }
}

fn is_seen(word: &[u8]) -> bool
    ensures { result ≡ is_seen_of word.now }
{
    matches!(word, b"seen")
}

// The value of a flag, without whitespace at both ends.
fn flag_value(value: &[u8]) -> Option<bool>
    ensures { result ≡ flag_value_of value.now }
{
    match trim(value) {
        b"true" => Some(true),
        b"false" => Some(false),
        _ => None,
    }
}
