// The choices of a select question, which stand in one text.
ghost use Rattle.std.specs.Prelude.{◌≡◌, ◌∷◌, ◌++◌, ◌<◌, [], List as Listed, ℕ, length, OnOk, IfOk, false, true};
ghost use Rattle.dc_text.specs.Bytes.{drop_front};
ghost use Rattle.dc_words.specs.Words.{some_word};
ghost use Rattle.dc_words.specs.Choices.{is_gap as is_gap_of, spells_next as spells_next_of, gap_next as gap_next_of, symbols, choices_of, choice_text, joined, AreSplitAgain};

use dc_text::bytes::is_space;
use dc_text::{List, Mem, Text};
use std::alloc::Global;

/// The choices of a text (debconf-devel(7)). A comma and the whitespace after it part two choices, `\,` spells a comma
/// and `\ ` a space; whitespace at the front and empty choices are passed over. A newline is whitespace too.
pub fn split_choices(alloc: Global, text: &[u8]) -> Mem<List<Text>>
    ensures { IfOk result (λ choices. choices ≡ choices_of text.now) }
{
    let mut choices = List::new(alloc);
    let mut choice = Text::new(alloc);
    let mut rest = without_gap(text);
    while !rest.is_empty() {
        let (symbol, after) = read_symbol(rest);
        match symbol {
            Some(byte) => choice.push(byte)?,
            None => {
                add_choice(&mut choices, choice)?;
                choice = Text::new(alloc);
            }
        }
        rest = after;
    }
    add_choice(&mut choices, choice)?;
    Ok(choices)
}

// What a text of choices says first, and what follows: a byte, or `None` where it parts two choices.
fn read_symbol(text: &[u8]) -> (Option<u8>, &[u8])
    requires { 0 < length text.now }
    ensures says { symbols false text.now ≡ result.0 ∷ symbols false result.1.now }
    ensures shorter { length result.1.now < length text.now }
{
    let (first, rest) = (text[0], &text[1..]);
    if first == b'\\' && spells_next(rest) {
        (Some(rest[0]), &rest[1..])
    } else if first == b',' && gap_next(rest) {
        (None, without_gap(rest))
    } else {
        (Some(first), rest)
    }
}

// Whether a comma or a space comes first.
fn spells_next(bytes: &[u8]) -> bool
    ensures { result ≡ spells_next_of bytes.now }
{
    match bytes {
        [] => false,
        [next, ..] => *next == b',' || *next == b' ',
    }
}

// Whether whitespace comes first.
fn gap_next(bytes: &[u8]) -> bool
    ensures { result ≡ gap_next_of bytes.now }
{
    match bytes {
        [] => false,
        [next, ..] => is_gap(*next),
    }
}

// Adds a choice, unless it is empty.
fn add_choice(choices: &mut List<Text>, choice: Text) -> Mem<()>
    ensures { OnOk result (choices.new ≡ choices.old ++ some_word choice) }
{
    if !choice.bytes().is_empty() {
        choices.push(choice)?;
    }
    Ok(())
}

fn is_gap(byte: u8) -> bool
    ensures { result ≡ is_gap_of byte }
{
    is_space(byte) || byte == b'\n'
}

// The bytes without whitespace at the front.
fn without_gap(bytes: &[u8]) -> &[u8]
    ensures value { result.now ≡ drop_front is_gap_of bytes.now }
{
    let mut rest = bytes;
    while let [first, tail @ ..] = rest
        && is_gap(*first)
    {
        rest = tail;
    }
    rest
}

/// The choices as one text, from which `split_choices` gives them again where none is empty, has whitespace other than
/// spaces, or ends with a backslash.
pub fn join_choices(alloc: Global, list: &List<Text>) -> Mem<Text>
    ensures { IfOk result (λ text. text ≡ joined list.now) }
{
    let mut text = Text::new(alloc);
    let mut rest = list.as_slice();
    while let [choice, others @ ..] = rest {
        append_choice(&mut text, choice.bytes())?;
        if !others.is_empty() {
            text.append(b", ")?;
        }
        rest = others;
    }
    Ok(text)
}

// Appends a choice as it is written.
fn append_choice(text: &mut Text, choice: &[u8]) -> Mem<()>
    ensures { OnOk result (text.new ≡ text.old ++ choice_text true choice.now) }
{
    let mut is_edge = true;
    let mut rest = choice;
    while let [byte, others @ ..] = rest {
        if *byte == b',' || (*byte == b' ' && (is_edge || others.is_empty())) {
            text.push(b'\\')?;
        }
        text.push(*byte)?;
        is_edge = *byte == b'\\';
        rest = others;
    }
    Ok(())
}

/// Choices that are joined are split into the same choices.
pub fn joined_choices_are_split()
    ensures { (choices : Listed (Listed ℕ)) → AreSplitAgain choices }
{}
