// The printed text of records.
ghost use Rattle.std.specs.Prelude.{◌≡◌, ◌++◌, ◌∷◌, [], IfOk, OnOk, codes, map as each, if◌then◌else◌};
ghost use Rattle.std.specs.List.{AllByRecursion};
ghost use Rattle.dc_text.specs.Ascii.{comma, space};
ghost use Rattle.dc_text.specs.Lines.{text_of};
ghost use Rattle.dc_text.specs.Maps.{AreDistinct};
ghost use Rattle.dc_text.specs.Settled.{newlines_shown};
ghost use Rattle.dc_item.specs.Item.{IsItem};
ghost use Rattle.dc_item.specs.Printed.{canon, table_text, record_lines, shown_field, shown_variable, variable_lines, list_lines};
ghost use Rattle.dc_item.specs.Sections.{under, keys_under, fields_mark, variables_mark};
ghost use Rattle.dc_item.specs.Table.{names_of, table_of, IsEntry, IsInOrder, ReadsAs};

use crate::entry::Entry;
use crate::item::Item;
use crate::marks::{FIELDS, FLAGS, OWNERS, VARIABLES, has_mark, unmarked};
use dc_text::bytes::split_at_byte;
use dc_text::{List, Mem, Text, show_newlines};
use std::alloc::Global;

/// The printed text of the records, one after another. Where no two have one name, it is read again as the same names and
/// items.
pub fn print_records(alloc: Global, list: &List<Entry>) -> Mem<Text>
    ensures printed { IfOk result (λ text. text ≡ canon list.now) }
    ensures table { IfOk result (λ text. IsInOrder list.now → text ≡ table_text (table_of list.now)) }
    ensures read_again { IfOk result (λ text. AreDistinct (names_of list.now) → ReadsAs text list.now) }
{
    let text = print_all(alloc, list.as_slice())?;
    Ok(text)
}

fn print_all(alloc: Global, entries: &[Entry]) -> Mem<Text>
    ensures printed { IfOk result (λ text. text ≡ canon entries.now) }
    ensures entries { IfOk result (λ text. AllByRecursion IsEntry entries.now) }
{
    let mut text = Text::new(alloc);
    for entry in entries {
        print_record(alloc, &mut text, entry.name.bytes(), &entry.item)?;
    }
    Ok(text)
}

/// Puts the printed record of the name and the item at the end of the text, and an empty line.
pub fn print_record(alloc: Global, text: &mut Text, name: &[u8], item: &Item) -> Mem<()>
    ensures printed { OnOk result (text.new ≡ text.old ++ text_of (record_lines (name.now, item.now))) }
    ensures item { OnOk result (IsItem item.now) }
{
    let entries = item.entries()?;
    text.append(b"Name: ")?;
    text.append(name)?;
    text.push(b'\n')?;
    print_fields(alloc, text, &entries)?;
    print_list(text, b"Owners: ", OWNERS, &entries)?;
    print_list(text, b"Flags: ", FLAGS, &entries)?;
    print_variables(alloc, text, &entries)?;
    text.push(b'\n')?;
    Ok(())
}

fn print_fields(alloc: Global, text: &mut Text, entries: &[(&[u8], &[u8])]) -> Mem<()>
    ensures { OnOk result (text.new ≡ text.old ++ text_of (each shown_field (under fields_mark (each (λ e. (e.0.now, e.1.now)) entries.now)))) }
{
    for (key, value) in entries {
        if has_mark(FIELDS, key) {
            print_field(alloc, text, unmarked(key), value)?;
        }
    }
    Ok(())
}

fn print_field(alloc: Global, text: &mut Text, key: &[u8], value: &[u8]) -> Mem<()>
    ensures { OnOk result (text.new ≡ text.old ++ text_of (shown_field (key.now, value.now) ∷ [])) }
{
    text.append_capital(key)?;
    text.append(b": ")?;
    push_value(alloc, text, value)?;
    text.push(b'\n')
}

// A value in one line: each newline as the pair of a backslash and an n. Most have none, and stay as they are.
fn push_value(alloc: Global, text: &mut Text, value: &[u8]) -> Mem<()>
    ensures { OnOk result (text.new ≡ text.old ++ newlines_shown value.now) }
{
    match split_at_byte(value, b'\n') {
        None => text.append(value),
        Some(_) => text.append(show_newlines(alloc, value)?.bytes()),
    }
}

// The variables, and before the first of them their heading.
fn print_variables(alloc: Global, text: &mut Text, entries: &[(&[u8], &[u8])]) -> Mem<()>
    ensures { OnOk result (text.new ≡ text.old ++ text_of (variable_lines (under variables_mark (each (λ e. (e.0.now, e.1.now)) entries.now)))) }
{
    let mut is_first = true;
    for (key, value) in entries {
        if has_mark(VARIABLES, key) {
            push_heading(text, is_first)?;
            print_variable(alloc, text, unmarked(key), value)?;
            is_first = false;
        }
    }
    Ok(())
}

// The heading of the variables, if the first is to follow.
fn push_heading(text: &mut Text, is_first: bool) -> Mem<()>
    ensures { OnOk result (text.new ≡ text.old ++ (if is_first then codes "Variables:\n" else [])) }
{
    if is_first {
        text.append(b"Variables:\n")?;
    }
    Ok(())
}

fn print_variable(alloc: Global, text: &mut Text, key: &[u8], value: &[u8]) -> Mem<()>
    ensures { OnOk result (text.new ≡ text.old ++ text_of (shown_variable (key.now, value.now) ∷ [])) }
{
    text.push(b' ')?;
    text.append(key)?;
    text.append(b" = ")?;
    push_value(alloc, text, value)?;
    text.push(b'\n')
}

// The line of the owners or of the flags, where there are some.
fn print_list(text: &mut Text, head: &[u8], mark: u8, entries: &[(&[u8], &[u8])]) -> Mem<()>
    ensures { OnOk result (text.new ≡ text.old ++ text_of (list_lines head.now (keys_under mark (each (λ e. (e.0.now, e.1.now)) entries.now)))) }
{
    let mut is_first = true;
    for (key, _) in entries {
        if has_mark(mark, key) {
            push_piece(text, head, is_first, unmarked(key))?;
            is_first = false;
        }
    }
    if is_first {
        return Ok(());
    }
    text.push(b'\n')
}

// A name of a list, and before it the head of the list if it is the first, or else a comma and a space.
fn push_piece(text: &mut Text, head: &[u8], is_first: bool, name: &[u8]) -> Mem<()>
    ensures { OnOk result (text.new ≡ text.old ++ (if is_first then head.now ++ name.now else comma ∷ space ∷ name.now)) }
{
    if is_first {
        text.append(head)?;
    } else {
        text.append(b", ")?;
    }
    text.append(name)
}
