// The choices of a question.
ghost use Rattle.std.specs.Prelude.{◌≡◌, IfOk, codes};
ghost use Rattle.dc_question.specs.Readings.{plain_choices, shown_choices, choices_by};

use crate::fields::{field, fill_in};
use dc_item::Item;
use dc_text::{FieldKey, List, Mem, Text};
use dc_words::split_choices;
use std::alloc::Global;

/// The choices of a question. There are as many labels as plain choices, and each label stands for the plain choice at
/// its place.
#[derive(Drop)]
pub struct ChoicePair {
    /// What values are made of.
    pub plain: List<Text>,
    /// What the user reads.
    pub labels: List<Text>,
}

/// The choices of a question with this template, with labels in the user's language where they are as many as the plain
/// choices.
pub fn choice_pair(alloc: Global, lang: &[u8], question: &Item, template: &Item) -> Mem<ChoicePair>
    ensures { IfOk result (λ pair. pair ≡ choices_by lang.now question.now template.now) }
{
    let plain = plain(alloc, question, template)?;
    let labels = shown(alloc, lang, question, template)?;
    if labels.len() == plain.len() {
        return Ok(ChoicePair { plain, labels });
    }
    let labels = plain.copy()?;
    Ok(ChoicePair { plain, labels })
}

fn plain(alloc: Global, question: &Item, template: &Item) -> Mem<List<Text>>
    ensures { IfOk result (λ choices. choices ≡ plain_choices question.now template.now) }
{
    let text: &[u8] = match template.field(b"choices") {
        None => b"",
        Some(text) => text,
    };
    let filled = fill_in(alloc, question, b"choices", text)?;
    split_choices(alloc, filled.bytes())
}

fn shown(alloc: Global, lang: &[u8], question: &Item, template: &Item) -> Mem<List<Text>>
    ensures { IfOk result (λ choices. choices ≡ shown_choices lang.now question.now template.now) }
{
    let key = FieldKey::known(alloc, b"choices")?;
    match field(alloc, lang, question, template, &key)? {
        None => split_choices(alloc, b""),
        Some(text) => split_choices(alloc, text.bytes()),
    }
}
