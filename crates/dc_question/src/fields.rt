// The fields of a template.
ghost use Rattle.std.specs.Prelude.{◌≡◌, IfOk, codes, map, true};
ghost use Rattle.std.specs.Option.{option_copied};
ghost use Rattle.dc_question.specs.Readings.{first_of_keys, localised as localised_of, keys_of, has_references as has_references_of, filled_in, field_of};
ghost use Rattle.dc_template.specs.Forms.{is_field_of};
ghost use Rattle.dc_text.specs.Bytes.{lower};
ghost use Rattle.dc_text.specs.Names.{is_field_key};

use dc_item::Item;
use dc_template::{Variables, expand, is_description, is_extended, keys_tried};
use dc_text::{FieldKey, List, Mem, Text};
use std::alloc::Global;

/// A field of a template in the user's language (debconf-devel(7), localised templates). The field `type` is in no
/// language.
pub fn localised<'t>(
    alloc: Global,
    lang: &[u8],
    template: &'t Item,
    key: &FieldKey,
) -> Mem<Option<&'t [u8]>>
    ensures { IfOk result (λ found. option_copied found ≡ localised_of lang.now template.now key.now) }
{
    let keys = keys(alloc, lang, key)?;
    Ok(first_of(template, keys.as_slice()))
}

fn keys(alloc: Global, lang: &[u8], key: &FieldKey) -> Mem<List<FieldKey>>
    ensures { IfOk result (λ keys. keys ≡ keys_of lang.now key.now) }
{
    if key.bytes() == b"type".as_slice() {
        let mut keys = List::new(alloc);
        keys.push(key.copy()?)?;
        return Ok(keys);
    }
    keys_tried(alloc, lang, key)
}

fn first_of<'t>(template: &'t Item, keys: &[FieldKey]) -> Option<&'t [u8]>
    ensures { option_copied result ≡ first_of_keys template.now.fields keys.now }
{
    let mut rest = keys;
    while let [key, others @ ..] = rest {
        if let Some(value) = template.field(key.bytes()) {
            return Some(value);
        }
        rest = others;
    }
    None
}

/// A field of the template in the user's language, with the question's variables put in where its text may refer to
/// them: descriptions, extended descriptions and choices.
pub fn field(
    alloc: Global,
    lang: &[u8],
    question: &Item,
    template: &Item,
    key: &FieldKey,
) -> Mem<Option<Text>>
    ensures { IfOk result (λ found. found ≡ field_of lang.now question.now template.now key.now) }
{
    match localised(alloc, lang, template, key)? {
        None => Ok(None),
        Some(text) => Ok(Some(fill_in(alloc, question, key.bytes(), text)?)),
    }
}

// The variables of a question.
#[derive(Drop)]
struct QuestionVariables<'q> {
    question: &'q Item,
}

impl<'q> Variables for QuestionVariables<'q> {
    ghost values = { λ v. v.question.now.variables };

    fn value(&self, key: &[u8]) -> Option<&[u8]> {
        self.question.var(key)
    }
}

/// The text of a field with the question's variables put in.
pub fn fill_in(alloc: Global, question: &Item, key: &[u8], text: &[u8]) -> Mem<Text>
    ensures { IfOk result (λ filled. filled ≡ filled_in question.now key.now text.now) }
{
    if has_references(key) {
        expand(alloc, text, &QuestionVariables { question })
    } else {
        Text::from_bytes(alloc, text)
    }
}

fn has_references(key: &[u8]) -> bool
    ensures { result ≡ has_references_of key.now }
{
    is_description(key) || is_extended(key) || is_choices(key)
}

fn is_choices(key: &[u8]) -> bool
    ensures { result ≡ is_field_of (codes "choices") key.now }
{
    key == b"choices".as_slice() || key.starts_with(b"choices-")
}
