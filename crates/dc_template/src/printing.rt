// The printed text of templates.
ghost use Rattle.std.specs.Prelude.{◌≡◌, ◌∷◌, ◌++◌, [], IfOk, OnOk, map as each};
ghost use Rattle.std.specs.List.{flat_map};
ghost use Rattle.std.specs.FinMap as map;
ghost use Rattle.dc_text.specs.Lines.{text_of};
ghost use Rattle.dc_text.specs.Maps.{AreDistinct};
ghost use Rattle.dc_template.specs.Stanzas.{IsTemplate, field_map as field_map_of, row_line, lines_between_newlines};
ghost use Rattle.dc_template.specs.Printed.{canon, template_lines, field_lines, field_line, extended_lines, names};
ghost use Rattle.dc_template.specs.Reading.{Reads};

use crate::checking::is_type;
use crate::forms::{is_description, is_extended};
use crate::reading::{extended_key, map_of};
use crate::template::Template;
use dc_text::bytes::split_at_byte;
use dc_text::{FieldKey, List, Mem, Text, TextMap};
use std::alloc::Global;

/// The templates as a file, for distinct names: `read_templates` reads the same templates from it.
pub fn print_templates(alloc: Global, list: &List<Template>) -> Mem<Text>
    ensures printed { IfOk result (λ text. text ≡ canon list.now) }
    ensures again { IfOk result (λ text. AreDistinct (names list.now) → Reads text list.now) }
{
    let mut out = Text::new(alloc);
    for template in list.as_slice() {
        print_template(alloc, &mut out, template)?;
    }
    Ok(out)
}

fn print_template(alloc: Global, out: &mut Text, template: &Template) -> Mem<()>
    ensures printed { OnOk result (out.new ≡ out.old ++ text_of (template_lines template.now)) }
    ensures template { IsTemplate template.now }
{
    let listed = template.fields();
    let fields = field_map(alloc, listed)?;
    out.append(b"Template: ")?;
    out.append(template.name().bytes())?;
    out.append(b"\nType: ")?;
    out.append(template.kind().word())?;
    out.push(b'\n')?;
    print_fields(alloc, out, &fields, listed)?;
    out.push(b'\n')
}

// Prints these fields, where the map has all fields.
fn print_fields(
    alloc: Global,
    out: &mut Text,
    fields: &TextMap<Text>,
    listed: &[(FieldKey, Text)],
) -> Mem<()>
    ensures { OnOk result (out.new ≡ out.old ++ text_of (flat_map (field_lines fields.now) listed.now)) }
{
    for (key, value) in listed {
        print_field(alloc, out, fields, key, value)?;
    }
    Ok(())
}

fn field_map(alloc: Global, fields: &[(FieldKey, Text)]) -> Mem<TextMap<Text>>
    ensures { IfOk result (λ m. m ≡ map.from_entries fields.now) }
{
    let mut entries = List::new(alloc);
    for (key, value) in fields {
        entries.push((key.copy()?.into_text(), value.copy()?))?;
    }
    map_of(alloc, entries)
}

fn print_field(
    alloc: Global,
    out: &mut Text,
    fields: &TextMap<Text>,
    key: &FieldKey,
    value: &Text,
) -> Mem<()>
    ensures { OnOk result (out.new ≡ out.old ++ text_of (field_lines fields.now (key.now, value.now))) }
{
    if is_type(key) || is_extended(key.bytes()) {
        return Ok(());
    }
    print_field_line(out, key.bytes(), value.bytes())?;
    if is_description(key.bytes())
        && let Some(text) = fields.get(extended_key(alloc, key)?.bytes())
    {
        print_rows(out, text.bytes())?;
    }
    Ok(())
}

fn print_field_line(out: &mut Text, key: &[u8], value: &[u8]) -> Mem<()>
    ensures { OnOk result (out.new ≡ out.old ++ text_of (field_line key.now value.now ∷ [])) }
{
    out.append_capital(key)?;
    out.push(b':')?;
    if !value.is_empty() {
        out.push(b' ')?;
        out.append(value)?;
    }
    out.push(b'\n')
}

// Prints an extended description as indented lines.
fn print_rows(out: &mut Text, text: &[u8]) -> Mem<()>
    ensures { OnOk result (out.new ≡ out.old ++ text_of (each row_line (lines_between_newlines text.now))) }
{
    let mut rest = text;
    while let Some((line, after)) = split_at_byte(rest, b'\n') {
        print_row(out, line)?;
        rest = after;
    }
    print_row(out, rest)
}

fn print_row(out: &mut Text, line: &[u8]) -> Mem<()>
    ensures { OnOk result (out.new ≡ out.old ++ text_of (row_line line.now ∷ [])) }
{
    out.push(b' ')?;
    if line.is_empty() {
        out.push(b'.')?;
    }
    out.append(line)?;
    out.push(b'\n')
}
