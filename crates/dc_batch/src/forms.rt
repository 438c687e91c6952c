// What the lines of a job text say.
ghost use Rattle.std.specs.Prelude.{◌≡◌, ◌++◌, ◌+◌, ◌≤◌, length, IfOk, OnOk, map};
ghost use Rattle.std.specs.List.{list_any};
ghost use Rattle.std.specs.Str.{bytes_eq};
ghost use Rattle.dc_text.specs.Bytes.{lower, trimmed};

use dc_text::bytes::{is_blank, split_at_byte, split_line, trim};
use dc_text::{List, Mem, Text};
use std::alloc::Global;

/// A field of a stanza.
#[derive(Clone, Copy, Debug, PartialEq, Eq)]
pub enum Field {
    Package,
    Templates,
    Config,
}

/// What a line says, wherever it stands.
#[derive(Drop)]
pub enum Form {
    Blank,
    /// It has no colon.
    Colonless,
    /// It has no field before its colon.
    Unknown,
    Sets(Field, Text),
}

/// A line that isn't a comment, and its number in the text, from 1.
#[derive(Drop)]
pub struct Line {
    pub number: u64,
    pub form: Form,
}

const FIELDS: [Field; 3] = [Field::Package, Field::Templates, Field::Config];

ghost use Rattle.dc_batch.specs.Forms.{field_word, field_of, form_of, said, is_comment as is_comment_of, line_at, lines_in};
ghost use Rattle.dc_batch.specs.Jobs.{sets as sets_of, is_blank_form as is_blank_form_of};

impl Field {
    // The field that has this word, read without regard to case, `None` where none has.
    fn read(word: &[u8]) -> Option<Self>
        ensures { result ≡ field_of word.now }
    {
        FIELDS
            .iter()
            .copied()
            .find(|field| is_word(word, field.word()))
    }

    // The word of the field, in lower case.
    fn word(self) -> &'static [u8]
        ensures { result.now ≡ field_word self }
    {
        match self {
            Field::Package => b"package",
            Field::Templates => b"templates",
            Field::Config => b"config",
        }
    }
}

fn is_word(bytes: &[u8], word: &[u8]) -> bool
    ensures { result ≡ bytes_eq (map lower bytes.now) (map lower word.now) }
{
    bytes.eq_ignore_ascii_case(word)
}

impl Form {
    /// Whether the line sets the field.
    pub fn sets(&self, field: Field) -> bool
        ensures { result ≡ sets_of field self.now }
    {
        match self {
            Form::Sets(other, _) => field == *other,
            _ => false,
        }
    }

    pub fn is_blank(&self) -> bool
        ensures { result ≡ is_blank_form_of self.now }
    {
        match self {
            Form::Blank => true,
            _ => false,
        }
    }
}

/// The lines of a text, without comments.
pub fn read_lines(alloc: Global, text: &[u8]) -> Mem<List<Line>>
    ensures { IfOk result (λ lines. lines ≡ lines_in text.now) }
{
    let mut lines = List::new(alloc);
    let mut rest = text;
    let mut number = 0u64;
    while !rest.is_empty() {
        let (line, after) = split_line(rest);
        number += 1;
        add_line(alloc, &mut lines, number, line)?;
        rest = after;
    }
    Ok(lines)
}

fn add_line(alloc: Global, lines: &mut List<Line>, number: u64, line: &[u8]) -> Mem<()>
    ensures { OnOk result (lines.new ≡ lines.old ++ line_at number line.now) }
{
    if is_comment(line) {
        return Ok(());
    }
    let form = read_form(alloc, line)?;
    lines.push(Line { number, form })
}

fn is_comment(line: &[u8]) -> bool
    ensures { result ≡ is_comment_of line.now }
{
    match line {
        [] => false,
        [first, ..] => *first == b'#',
    }
}

fn read_form(alloc: Global, line: &[u8]) -> Mem<Form>
    ensures { IfOk result (λ form. form ≡ form_of line.now) }
{
    if is_blank(line) {
        return Ok(Form::Blank);
    }
    match split_at_byte(line, b':') {
        None => Ok(Form::Colonless),
        Some((word, value)) => read_said(alloc, Field::read(trim(word)), trim(value)),
    }
}

// A line by its field, if there is one, and its value.
fn read_said(alloc: Global, field: Option<Field>, value: &[u8]) -> Mem<Form>
    ensures { IfOk result (λ form. form ≡ said field value.now) }
{
    match field {
        Some(field) => Ok(Form::Sets(field, Text::from_bytes(alloc, value)?)),
        None => Ok(Form::Unknown),
    }
}
