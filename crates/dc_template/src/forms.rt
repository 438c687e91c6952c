// What the lines of a template file say.
ghost use Rattle.std.specs.Prelude.{◌≡◌, ◌∷◌, ◌++◌, ◌+◌, ◌≤◌, ℕ, [], List as Listed, length, map, IfOk, MatchOption, OnOk, codes, true};
ghost use Rattle.std.specs.List.{take_while};
ghost use Rattle.std.specs.Str.{bytes_eq};
ghost use Rattle.dc_text.specs.Bytes.{lower, is_indented as is_indented_of};
ghost use Rattle.dc_text.specs.Lines.{lines_of};
ghost use Rattle.dc_text.specs.Names.{is_field_key};

use dc_text::bytes::{is_blank, is_indented, split_at_byte, split_line, trim, trim_end};
use dc_text::{FieldKey, List, Mem, Name, NameRefused, OutOfMemory, Text};
use std::alloc::Global;

/// What an indented line says.
#[derive(Drop)]
pub enum Row {
    /// A line without a text.
    Empty,
    /// A text that goes on that of the line before, where that flows too.
    Flowing(Text),
    /// A line as it is.
    Kept(Text),
}

/// What a line says, wherever it stands.
#[derive(Drop)]
pub enum Form {
    Blank,
    Indented(Row),
    /// It has no colon.
    Colonless,
    /// It has no key that a line may have.
    Unkeyed,
    /// It is a Template line, and its value is no name.
    Unnamed,
    /// It is the Template line of this name.
    Heads(Name),
    Sets(FieldKey, Text),
}

/// A line that isn't a comment, and its number in the file, from 1.
#[derive(Drop)]
pub struct Line {
    pub number: u64,
    pub form: Form,
}

ghost use Rattle.dc_template.specs.Forms.{form_of, headed, template_word, row_of, row_text, is_description as is_description_of, is_extended as is_extended_of, is_line_key as is_line_key_of, is_comment as is_comment_of, line_at, lines_in, lines_from};

/// The lines of a text, without comments.
pub fn read_lines(alloc: Global, text: &[u8]) -> Mem<List<Line>>
    ensures { IfOk result (λ lines. lines ≡ lines_in text.now) }
{
    let mut lines = List::new(alloc);
    let mut rest = text;
    let mut number = 0u64;
    while !rest.is_empty() {
        let (line, after) = split_line(rest);
        number += 1;
        add_line(alloc, &mut lines, number, line)?;
        rest = after;
    }
    Ok(lines)
}

fn add_line(alloc: Global, lines: &mut List<Line>, number: u64, line: &[u8]) -> Mem<()>
    ensures { OnOk result (lines.new ≡ lines.old ++ line_at number line.now) }
{
    if is_comment(line) {
        return Ok(());
    }
    let form = read_form(alloc, line)?;
    lines.push(Line { number, form })
}

fn is_comment(line: &[u8]) -> bool
    ensures { result ≡ is_comment_of line.now }
{
    match line {
        [] => false,
        [first, ..] => *first == b'#',
    }
}

fn read_form(alloc: Global, line: &[u8]) -> Mem<Form>
    ensures { IfOk result (λ form. form ≡ form_of line.now) }
{
    if is_blank(line) {
        return Ok(Form::Blank);
    }
    if is_indented(line) {
        return Ok(Form::Indented(read_row(alloc, line)?));
    }
    match split_at_byte(line, b':') {
        None => Ok(Form::Colonless),
        Some((word, value)) => read_headed(alloc, word, trim(value)),
    }
}

fn read_row(alloc: Global, line: &[u8]) -> Mem<Row>
    requires { is_indented_of line.now ≡ true }
    ensures { IfOk result (λ row. row ≡ row_of line.now) }
{
    if is_indented(&line[1..]) {
        return Ok(Row::Kept(row_text_of(alloc, line)?));
    }
    if matches!(trim(line), b".") {
        return Ok(Row::Empty);
    }
    Ok(Row::Flowing(row_text_of(alloc, line)?))
}

fn row_text_of(alloc: Global, line: &[u8]) -> Mem<Text>
    requires { is_indented_of line.now ≡ true }
    ensures { IfOk result (λ text. text ≡ row_text line.now) }
{
    Text::from_bytes(alloc, trim_end(&line[1..]))
}

// A line by the word before its colon and the trimmed text after it.
fn read_headed(alloc: Global, word: &[u8], value: &[u8]) -> Mem<Form>
    ensures { IfOk result (λ form. form ≡ headed (map lower word.now) value.now) }
{
    if is_template_word(word) {
        return read_heading(alloc, value);
    }
    match usual_key(word) {
        Some(key) => Ok(Form::Sets(
            FieldKey::known(alloc, key)?,
            Text::from_bytes(alloc, value)?,
        )),
        None => read_other(alloc, word, value),
    }
}

// Whether the word heads a template, where it is spelled as most do.
fn is_template_word(word: &[u8]) -> bool
    ensures { result ≡ bytes_eq word.now (codes "Template") }
{
    matches!(word, b"Template")
}

// The key that most templates have, where it is spelled as they do.
fn usual_key(word: &[u8]) -> Option<&'static [u8]>
    ensures { MatchOption result (Unit {0}) (λ key. (key.now ≡ map lower word.now) × (is_field_key key.now ≡ true)
        × ((value : Listed ℕ) → headed key.now value ≡ Form.Sets key.now value)) }
{
    match word {
        b"Type" => Some(b"type"),
        b"Default" => Some(b"default"),
        b"Choices" => Some(b"choices"),
        b"Description" => Some(b"description"),
        _ => None,
    }
}

// A Template line.
fn read_heading(alloc: Global, value: &[u8]) -> Mem<Form>
    ensures { IfOk result (λ form. form ≡ headed template_word value.now) }
{
    match Name::read(alloc, value) {
        Ok(name) => Ok(Form::Heads(name)),
        Err(NameRefused::Bad) => Ok(Form::Unnamed),
        Err(NameRefused::OutOfMemory) => Err(OutOfMemory),
    }
}

// A line whose word is spelled in any way.
fn read_other(alloc: Global, word: &[u8], value: &[u8]) -> Mem<Form>
    ensures { IfOk result (λ form. form ≡ headed (map lower word.now) value.now) }
{
    match FieldKey::read(alloc, word) {
        Ok(key) => read_keyed(alloc, key, value),
        Err(NameRefused::Bad) => Ok(Form::Unkeyed),
        Err(NameRefused::OutOfMemory) => Err(OutOfMemory),
    }
}

fn read_keyed(alloc: Global, key: FieldKey, value: &[u8]) -> Mem<Form>
    ensures { IfOk result (λ form. form ≡ headed key value.now) }
{
    if key.bytes() == b"template".as_slice() {
        return read_heading(alloc, value);
    }
    if !is_line_key(&key) {
        return Ok(Form::Unkeyed);
    }
    let value = Text::from_bytes(alloc, value)?;
    Ok(Form::Sets(key, value))
}

// Whether a line may have the key.
fn is_line_key(key: &FieldKey) -> bool
    ensures { result ≡ is_line_key_of key.now }
{
    let bytes = key.bytes();
    !(is_extended(bytes) || (is_description(bytes) && 55 < bytes.len()))
}

/// Whether the key is that of a description, in any language.
pub fn is_description(key: &[u8]) -> bool
    ensures { result ≡ is_description_of key.now }
{
    is_plain_description(key) || key.starts_with(b"description-")
}

/// Whether the key is that of a description, in no language of its own.
pub(crate) fn is_plain_description(key: &[u8]) -> bool
    ensures { result ≡ bytes_eq key.now (codes "description") }
{
    matches!(key, b"description")
}

/// Whether the key is that of an extended description, in any language.
pub fn is_extended(key: &[u8]) -> bool
    ensures { result ≡ is_extended_of key.now }
{
    key == b"extended_description".as_slice() || key.starts_with(b"extended_description-")
}
