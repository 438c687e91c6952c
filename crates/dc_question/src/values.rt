// The kind and value of a question.
ghost use Rattle.std.specs.Prelude.{◌≡◌, [], IfOk, unwrap_or};
ghost use Rattle.std.specs.Option.{option_copied};
ghost use Rattle.dc_question.specs.Readings.{kind_by, default_of, value_of};

use crate::fields::localised;
use dc_item::Item;
use dc_template::Kind;
use dc_text::{FieldKey, Mem, Text};
use std::alloc::Global;

/// The kind of a question with this template: `None` without a template, or where its `type` is no kind's word.
pub fn kind(template: Option<&Item>) -> Option<Kind>
    ensures { result ≡ kind_by (option_copied template.entry) }
{
    match template {
        None => None,
        Some(item) => kind_of_item(item),
    }
}

fn kind_of_item(template: &Item) -> Option<Kind>
    ensures { result ≡ kind_by (Some template.now) }
{
    match template.field(b"type") {
        None => None,
        Some(word) => Kind::read(word),
    }
}

/// The value of a question with this template: its own, else the template's default in the user's language, else the
/// empty text.
pub fn value(alloc: Global, lang: &[u8], question: &Item, template: Option<&Item>) -> Mem<Text>
    ensures { IfOk result (λ value. value ≡ value_of lang.now question.now (option_copied template.entry)) }
{
    match question.field(b"value") {
        Some(value) => Text::from_bytes(alloc, value),
        None => default_value(alloc, lang, template),
    }
}

/// The value of a question with this template that has none of its own.
pub fn default_value(alloc: Global, lang: &[u8], template: Option<&Item>) -> Mem<Text>
    ensures { IfOk result (λ value. value ≡ unwrap_or (default_of lang.now (option_copied template.entry)) []) }
{
    match template {
        None => Ok(Text::new(alloc)),
        Some(item) => default_in(alloc, lang, item),
    }
}

fn default_in(alloc: Global, lang: &[u8], template: &Item) -> Mem<Text>
    ensures { IfOk result (λ value. value ≡ unwrap_or (default_of lang.now (Some template.now)) []) }
{
    let key = FieldKey::known(alloc, b"default")?;
    match localised(alloc, lang, template, &key)? {
        None => Ok(Text::new(alloc)),
        Some(value) => Text::from_bytes(alloc, value),
    }
}
