// How a question is put.
ghost use Rattle.std.specs.Prelude.{◌≡◌, ◌++◌, ◌∷◌, [], codes, IfOk, OnOk};
ghost use Rattle.std.specs.List.{join_by};
ghost use Rattle.std.specs.Str.Lossy.{utf8_lossy};
ghost use Rattle.dc_text.specs.Ascii.{newline};
ghost use Rattle.dc_text.specs.Lines.{text_of};
ghost use Rattle.dc_text.specs.Settled.{newlines_shown};
ghost use Rattle.dc_template.specs.declared.kinds.Kind.TheVariants.{Bool, Select, Multiselect};
ghost use Rattle.dc_teletype.specs.Prompts.{heading as heading_of, introduction as introduction_of, explanation, menu, labels_with, prompt as prompt_of, in_columns, value_text, asking, telling, spaced, bracketed};

use crate::columns::{append_shown, columns_of};
use crate::keys::{all_beside, beside, numerals};
use crate::wrapping::wrap;
use bstr::ByteSlice;
use dc_frontend::Shown;
use dc_template::Kind;
use dc_text::{List, Mem, Text, show_newlines};
use dc_words::choices::split_choices;
use std::alloc::Global;

/// The columns of the dialogue.
pub const COLUMNS: usize = 76;

/// A title over as many dashes as it has columns, and an empty line. There is none where the title is empty.
pub fn heading(alloc: Global, title: &[u8]) -> Mem<Text>
    ensures { IfOk result (λ text. text ≡ heading_of title.now) }
{
    let mut text = Text::new(alloc);
    if title.is_empty() {
        return Ok(text);
    }
    append_shown(alloc, &mut text, title)?;
    text.push(b'\n')?;
    let dashes = b"-".as_slice().repeatn(alloc, columns_of(alloc, title)?)?;
    text.append(dashes.as_slice())?;
    text.append(b"\n\n")?;
    Ok(text)
}

/// What stands before the prompt of a question: its extended description, and the labels of its choices with their numbers, each with
/// an empty line behind it where there is any.
pub fn introduction(alloc: Global, shown: &Shown) -> Mem<Text>
    ensures { IfOk result (λ text. text ≡ introduction_of shown.now) }
{
    let mut text = Text::new(alloc);
    append_explanation(alloc, &mut text, shown.extended.bytes())?;
    match shown.kind {
        Kind::Select | Kind::Multiselect => append_menu(alloc, &mut text, &shown.labels)?,
        _ => {}
    }
    Ok(text)
}

fn append_explanation(alloc: Global, text: &mut Text, extended: &[u8]) -> Mem<()>
    ensures { OnOk result (text.new ≡ text.old ++ explanation extended.now) }
{
    if extended.is_empty() {
        return Ok(());
    }
    let lines = wrap(alloc, extended, COLUMNS)?;
    append_lines(text, lines.as_slice())?;
    text.push(b'\n')
}

// Adds the lines, each with a newline.
fn append_lines(text: &mut Text, lines: &[Text]) -> Mem<()>
    ensures { OnOk result (text.new ≡ text.old ++ text_of lines.now) }
{
    let mut rest = lines;
    while let [line, others @ ..] = rest {
        text.append(line.bytes())?;
        text.push(b'\n')?;
        rest = others;
    }
    Ok(())
}

fn append_menu(alloc: Global, text: &mut Text, labels: &List<Text>) -> Mem<()>
    ensures { OnOk result (text.new ≡ text.old ++ menu labels.now) }
{
    if labels.len() == 0 {
        return Ok(());
    }
    let numerals = numerals(alloc, labels.len())?;
    append_labels(alloc, text, numerals.as_slice(), labels.as_slice())?;
    text.push(b'\n')
}

// Each label on a line, behind its number.
fn append_labels(alloc: Global, text: &mut Text, numerals: &[Text], labels: &[Text]) -> Mem<()>
    ensures { OnOk result (text.new ≡ text.old ++ labels_with numerals.now labels.now) }
{
    let mut numerals = numerals;
    let mut labels = labels;
    while let [numeral, other_numerals @ ..] = numerals
        && let [label, other_labels @ ..] = labels
    {
        append_label(alloc, text, numeral, label)?;
        numerals = other_numerals;
        labels = other_labels;
    }
    Ok(())
}

fn append_label(alloc: Global, text: &mut Text, numeral: &Text, label: &Text) -> Mem<()>
    ensures { OnOk result (text.new ≡ text.old ++ codes "  " ++ numeral.now ++ codes ". " ++ utf8_lossy label.now ++ newline ∷ []) }
{
    text.append(b"  ")?;
    text.append(numeral.bytes())?;
    text.append(b". ")?;
    append_shown(alloc, text, label.bytes())?;
    text.push(b'\n')
}

/// The prompt, behind which the user types: the description, and in brackets the value. What is only read ends with `[Press enter] `.
pub fn prompt(alloc: Global, shown: &Shown) -> Mem<Text>
    ensures { IfOk result (λ text. text ≡ prompt_of shown.now) }
{
    let description = shown.description.bytes();
    match shown.kind {
        Kind::Note | Kind::Txt | Kind::Error | Kind::Title => prompt_to_read(alloc, description),
        _ => {
            let told = told_value(alloc, shown)?;
            prompt_to_answer(alloc, description, told.bytes())
        }
    }
}

fn prompt_to_read(alloc: Global, description: &[u8]) -> Mem<Text>
    ensures { IfOk result (λ text. text ≡ telling description.now) }
{
    let mut text = in_lines(alloc, description)?;
    text.append(b"\n[Press enter] ")?;
    Ok(text)
}

fn prompt_to_answer(alloc: Global, description: &[u8], told: &[u8]) -> Mem<Text>
    ensures { IfOk result (λ text. text ≡ asking description.now told.now) }
{
    let mut text = in_lines(alloc, description)?;
    add_space(&mut text)?;
    append_bracketed(&mut text, told)?;
    Ok(text)
}

// A space behind what isn't empty.
fn add_space(text: &mut Text) -> Mem<()>
    ensures { OnOk result (text.new ≡ spaced text.old) }
{
    if text.bytes().is_empty() {
        return Ok(());
    }
    text.push(b' ')
}

// The lines of a text, with newlines between.
fn in_lines(alloc: Global, text: &[u8]) -> Mem<Text>
    ensures { IfOk result (λ joined. joined ≡ in_columns text.now) }
{
    let lines = wrap(alloc, text, COLUMNS)?;
    joined(alloc, lines.as_slice(), b'\n')
}

// The texts, with a byte between.
fn joined(alloc: Global, texts: &[Text], between: u8) -> Mem<Text>
    ensures { IfOk result (λ joined. joined ≡ join_by (λ text. text) (between ∷ []) texts.now) }
{
    let mut all = Text::new(alloc);
    let mut rest = texts;
    while let [text, others @ ..] = rest {
        all.append(text.bytes())?;
        if !others.is_empty() {
            all.push(between)?;
        }
        rest = others;
    }
    Ok(all)
}

// Adds brackets around what isn't empty.
fn append_bracketed(text: &mut Text, told: &[u8]) -> Mem<()>
    ensures { OnOk result (text.new ≡ text.old ++ bracketed told.now) }
{
    if told.is_empty() {
        return Ok(());
    }
    text.push(b'[')?;
    text.append(told)?;
    text.append(b"] ")
}

// How the value is told.
fn told_value(alloc: Global, shown: &Shown) -> Mem<Text>
    ensures { IfOk result (λ text. text ≡ value_text shown.now.kind shown.now.choices shown.now.value) }
{
    let value = shown.value.bytes();
    match shown.kind {
        Kind::Str => told_string(alloc, value),
        Kind::Bool => told_boolean(alloc, value),
        Kind::Select => told_choice(alloc, &shown.choices, value),
        Kind::Multiselect => told_choices(alloc, &shown.choices, value),
        _ => Ok(Text::new(alloc)),
    }
}

fn told_string(alloc: Global, value: &[u8]) -> Mem<Text>
    ensures { IfOk result (λ text. text ≡ utf8_lossy (newlines_shown value.now)) }
{
    let line = show_newlines(alloc, value)?;
    let mut text = Text::new(alloc);
    append_shown(alloc, &mut text, line.bytes())?;
    Ok(text)
}

fn told_boolean(alloc: Global, value: &[u8]) -> Mem<Text>
    ensures { IfOk result (λ text. text ≡ value_text Bool [] value.now) }
{
    if value == b"true".as_slice() {
        Text::from_bytes(alloc, b"yes")
    } else if value == b"false".as_slice() {
        Text::from_bytes(alloc, b"no")
    } else {
        Ok(Text::new(alloc))
    }
}

// The number of the first choice that is the value.
fn told_choice(alloc: Global, choices: &List<Text>, value: &[u8]) -> Mem<Text>
    ensures { IfOk result (λ text. text ≡ value_text Select choices.now value.now) }
{
    let numerals = numerals(alloc, choices.len())?;
    match beside(choices.as_slice(), numerals.as_slice(), value) {
        Some(numeral) => numeral.copy(),
        None => Ok(Text::new(alloc)),
    }
}

// The numbers of all choices of the value.
fn told_choices(alloc: Global, choices: &List<Text>, value: &[u8]) -> Mem<Text>
    ensures { IfOk result (λ text. text ≡ value_text Multiselect choices.now value.now) }
{
    let numerals = numerals(alloc, choices.len())?;
    let chosen = split_choices(alloc, value)?;
    let told = all_beside(
        alloc,
        choices.as_slice(),
        numerals.as_slice(),
        chosen.as_slice(),
    )?;
    joined(alloc, told.as_slice(), b' ')
}
