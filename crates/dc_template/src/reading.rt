// The templates of a file.
ghost use Rattle.std.specs.Prelude.{◌≡◌, true, false, IfOk, MatchOption, OnOk, [], ◌∷◌, ◌++◌, ◌<◌, length, List as Listed};
ghost use Rattle.std.specs.List.{AllByRecursion};
ghost use Rattle.std.specs.FinMap as map;
ghost use Rattle.dc_text.specs.Maps.{text_cmp};
ghost use Rattle.dc_text.specs.Names.{is_field_key};
ghost use Rattle.dc_template.specs.Forms.{forms};
ghost use Rattle.dc_template.specs.Kinds.{kind_of};
ghost use Rattle.dc_template.specs.TemplateFaults.{until_blank, sets_type};
ghost use Rattle.dc_template.specs.declared.forms.Form.{Form as FormOf};
ghost use Rattle.dc_template.specs.Stanzas.{stanza, IsTemplate, kind_in as kind_in_of, fields_in, fields_at, extended_key as extended_key_of, extended_text as extended_text_of, rows_first, shown as shown_of, parting as parting_of};
ghost use Rattle.dc_template.specs.Fields.{HaveKeys, AreApart, AreFit, StanzasAreFit};
ghost use Rattle.dc_template.specs.Reading.{IsAnswer, AreSound, template_at, templates_in};

use crate::checking::{check, is_blank, is_type};
use crate::faults::TemplateError;
use crate::forms::{Form, Line, Row, is_plain_description, read_lines};
use crate::kinds::Kind;
use crate::template::Template;
use dc_text::{FieldKey, List, Mem, Name, NameRefused, OutOfMemory, Text, TextMap};
use std::alloc::Global;
use std::cmp::Ordering;

/// The templates of a file, in order. Where a line has a fault, the error is the first such line, and at that line the
/// first of its faults in the order of `TemplateKind`.
pub fn read_templates(alloc: Global, bytes: &[u8]) -> Result<List<Template>, TemplateError>
    ensures { IsAnswer bytes.now result }
{
    let lines = read_lines(alloc, bytes)?;
    check(alloc, lines.as_slice())?;
    let templates = build(alloc, lines.as_slice())?;
    Ok(templates)
}

// The templates of lines that stand where they do.
fn build(alloc: Global, lines: &[Line]) -> Mem<List<Template>>
    requires sound { AreSound (forms lines.now) }
    requires fit { StanzasAreFit (forms lines.now) }
    ensures { IfOk result (λ templates. templates ≡ templates_in (forms lines.now)) }
{
    let mut templates = List::new(alloc);
    let mut rest = lines;
    while let [line, after @ ..] = rest {
        if let Form::Heads(name) = &line.form {
            add_template(alloc, &mut templates, name, after)?;
        }
        rest = after;
    }
    Ok(templates)
}

// Adds the template whose Template line has this name, and is followed by these lines.
fn add_template(
    alloc: Global,
    templates: &mut List<Template>,
    name: &Name,
    after: &[Line],
) -> Mem<()>
    requires sound { AllByRecursion IsTemplate (template_at name.now (forms after.now)) }
    requires fit { AreFit (fields_in (until_blank (forms after.now))) }
    ensures { OnOk result (templates.new ≡ templates.old ++ template_at name.now (forms after.now)) }
{
    match kind_in(after) {
        Some(kind) => templates.push(read_template(alloc, name, kind, after)?),
        None => Ok(()),
    }
}

// The kind that the stanza of these lines names.
fn kind_in(lines: &[Line]) -> Option<Kind>
    ensures { result ≡ kind_in_of (until_blank (forms lines.now)) }
{
    let mut rest = lines;
    while let [line, tail @ ..] = rest {
        if is_blank(&line.form) {
            return None;
        }
        if let Some(word) = type_set(&line.form) {
            return Kind::read(word.bytes());
        }
        rest = tail;
    }
    None
}

// The word of a line that sets the type.
fn type_set(form: &Form) -> Option<&Text>
    ensures { MatchOption result (sets_type form.now ≡ false) (λ word. (lines : Listed FormOf) → kind_in_of (form.now ∷ lines) ≡ kind_of word.now) }
{
    match form {
        Form::Sets(key, value) => { if is_type(key) { Some(value) } else { None } }
        _ => None,
    }
}

fn read_template(alloc: Global, name: &Name, kind: Kind, after: &[Line]) -> Mem<Template>
    requires sound { IsTemplate (stanza name.now kind (until_blank (forms after.now))) }
    requires fit { AreFit (fields_in (until_blank (forms after.now))) }
    ensures { IfOk result (λ template. template ≡ stanza name.now kind (until_blank (forms after.now))) }
{
    let fields = in_order(read_fields(alloc, after)?)?;
    Ok(Template::new(name.copy()?, kind, fields))
}

// The fields of the stanza that these lines go on, in the order of the lines.
fn read_fields(alloc: Global, lines: &[Line]) -> Mem<Vec<(FieldKey, Text)>>
    requires { HaveKeys (fields_in (until_blank (forms lines.now))) }
    ensures { IfOk result (λ fields. fields.items ≡ fields_in (until_blank (forms lines.now))) }
{
    let mut fields = Vec::new(alloc);
    let mut rest = lines;
    while let [line, tail @ ..] = rest {
        if is_blank(&line.form) {
            break;
        }
        add_fields(alloc, &mut fields, &line.form, tail)?;
        rest = tail;
    }
    Ok(fields)
}

// Adds the field of a line, and that of the indented lines that follow it.
fn add_fields(
    alloc: Global,
    fields: &mut Vec<(FieldKey, Text)>,
    form: &Form,
    after: &[Line],
) -> Mem<()>
    requires { HaveKeys (fields_at form.now (forms after.now)) }
    ensures { OnOk result (fields.new.items ≡ fields.old.items ++ fields_at form.now (forms after.now)) }
{
    if let Form::Sets(key, value) = form {
        fields.push((key.copy()?, value.copy()?))?;
        if let Some(text) = extended_text(alloc, after)? {
            fields.push((known_extended_key(alloc, key)?, text))?;
        }
    }
    Ok(())
}

// The key of a description's extended text, where that is a key.
fn known_extended_key(alloc: Global, key: &FieldKey) -> Mem<FieldKey>
    requires { is_field_key (extended_key_of key.now) ≡ true }
    ensures { IfOk result (λ extended. extended ≡ extended_key_of key.now) }
{
    if is_plain_description(key.bytes()) {
        return FieldKey::known(alloc, b"extended_description");
    }
    FieldKey::known(alloc, extended_key(alloc, key)?.bytes())
}

// The key of a description's extended text.
pub(crate) fn extended_key(alloc: Global, key: &FieldKey) -> Mem<Text>
    ensures { IfOk result (λ extended. extended ≡ extended_key_of key.now) }
{
    let mut extended = Text::from_bytes(alloc, b"extended_")?;
    extended.append(key.bytes())?;
    Ok(extended)
}

// The fields in byte order of their keys, of which no two are the same.
fn in_order(fields: Vec<(FieldKey, Text)>) -> Mem<Vec<(FieldKey, Text)>>
    requires { AreApart fields.items }
    ensures { IfOk result (λ sorted. sorted.items ≡ map.entries (map.from_entries {R = text_cmp} fields.items)) }
{
    let mut fields = fields;
    fields.sort_by(
        |one: &(FieldKey, Text), other: &(FieldKey, Text)| -> Ordering
            ensures { result ≡ text_cmp one.now.0 other.now.0 }
        { one.0.bytes().cmp(other.0.bytes()) },
    )?;
    Ok(fields)
}

// The text of the indented lines that come first, if there are some.
fn extended_text(alloc: Global, lines: &[Line]) -> Mem<Option<Text>>
    ensures { IfOk result (λ text. text ≡ extended_text_of (rows_first (forms lines.now))) }
{
    let Some((first, mut rest)) = first_row(lines) else {
        return Ok(None);
    };
    let mut text = Text::from_bytes(alloc, shown(first))?;
    let mut last = first;
    while let Some((row, after)) = first_row(rest) {
        text.push(parting(last, row))?;
        text.append(shown(row))?;
        last = row;
        rest = after;
    }
    Ok(Some(text))
}

// The indented line that comes first, if one does, and the lines after it.
fn first_row(lines: &[Line]) -> Option<(&Row, &[Line])>
    ensures { MatchOption result (rows_first (forms lines.now) ≡ [])
        (λ r. (rows_first (forms lines.now) ≡ r.0.now ∷ rows_first (forms r.1.now)) × (length r.1.now < length lines.now)) }
{
    match lines {
        [line, after @ ..] => match &line.form {
            Form::Indented(row) => Some((row, after)),
            _ => None,
        },
        [] => None,
    }
}

fn shown(row: &Row) -> &[u8]
    ensures { result.now ≡ shown_of row.now }
{
    match row {
        Row::Empty => b"",
        Row::Flowing(text) | Row::Kept(text) => text.bytes(),
    }
}

// What parts an indented line from the one before it.
fn parting(last: &Row, row: &Row) -> u8
    ensures { result ≡ parting_of last.now row.now }
{
    match (last, row) {
        (Row::Flowing(_), Row::Flowing(_)) => b' ',
        _ => b'\n',
    }
}

// The map that has each key's first value.
pub(crate) fn map_of(alloc: Global, entries: List<(Text, Text)>) -> Mem<TextMap<Text>>
    ensures { IfOk result (λ fields. fields ≡ map.from_entries entries) }
{
    let mut entries = entries;
    let mut fields = TextMap::new(alloc);
    while let Some((key, value)) = entries.pop() {
        fields.insert(key, value)?;
    }
    Ok(fields)
}
