// The tool `show`: what a database holds, printed.
ghost use Rattle.std.specs.Prelude.{◌≡◌, ◌∷◌, ◌++◌, [], IfOk, OnOk, length, map as each};
ghost use Rattle.dc_question.specs.Asked.{asked, HasPlans, seen};
ghost use Rattle.dc_run.specs.Inside.{HasPrinted, context_by, owners_texts};
ghost use Rattle.dc_run.specs.Jobs.{Prints, shown_text};
ghost use Rattle.dc_run.specs.Starting.{AreOver};
ghost use Rattle.dc_store.specs.Views.{store_in};
ghost use Rattle.dc_run.specs.Roots.{shaped};

use crate::outcome::{ToolAnswer, ToolEnd};
use crate::starting::Roots;
use dc_cli::Shown;
use dc_layer::Layer;
use dc_outside::{Link, LinkError};
use dc_question::Questions;
use dc_store::Store;
use dc_text::{List, Mem, Name, Text};
use dc_tools::{databases_text, owners_text, show_text};
use std::alloc::Global;

/// Prints what is asked for of the layers, in one write, for a user of the language (debconf-show(1)). The layers stay as they are. The code of
/// the last reply so far is handed back.
pub fn show<L: Link>(
    alloc: Global,
    shown: &Shown,
    roots: &Roots,
    lang: &Text,
    io: &mut L,
    used: &mut Vec<Box<dyn Layer>>,
    last_code: u8,
) -> ToolAnswer
    requires { AreOver (shaped roots.now) (length used.old.items) }
    ensures printed { HasPrinted (shown_text shown.now roots.now.conf (each state used.old.items) (context_by (shaped roots.now) lang.now))
        (L.link io.old) (L.link io.new) last_code result }
    ensures layers { each state used.new.items ≡ each state used.old.items }
{
    let mut store = Store::new(alloc, std::mem::replace(used, Vec::new(alloc)));
    let text = text_shown(alloc, shown, roots, lang, &mut store);
    *used = store.layers;
    let ended = match text {
        Ok(text) => print(io, &text),
        Err(_) => ToolEnd::OutOfMemory,
    };
    ToolAnswer {
        ended,
        is_started: false,
        last_code,
        status: 0,
    }
}

/// Prints a text in one write.
pub fn print<L: Link>(io: &mut L, text: &Text) -> ToolEnd
    ensures { Prints text.now (L.link io.old) (L.link io.new) result }
{
    match io.write(text.bytes()) {
        Ok(()) => ToolEnd::Done,
        Err(LinkError::Failed) => ToolEnd::PrintFault,
        Err(LinkError::OutOfMemory) => ToolEnd::OutOfMemory,
    }
}

// What is asked for.
fn text_shown(
    alloc: Global,
    shown: &Shown,
    roots: &Roots,
    lang: &Text,
    store: &mut Store,
) -> Mem<Text>
    requires { AreOver (shaped roots.now) (length store.old.layers.items) }
    ensures text { IfOk result (λ text. text ≡ shown_text shown.now roots.now.conf (store_in state store.old).layers (context_by (shaped roots.now) lang.now)) }
    ensures kept { store.new ≡ store.old }
{
    match shown {
        Shown::Questions(owners) => {
            let questions = Questions::new(alloc, store, &roots.config, &roots.templates, lang);
            let text = questions_text(&questions, owners);
            let Questions {
                alloc: _,
                store: _kept,
                context: _,
            } = questions;
            text
        }
        Shown::Owners => owners_text(store, &roots.config),
        Shown::Databases => databases_text(alloc, &roots.conf),
    }
}

// A line for each question of the owners.
fn questions_text(questions: &Questions, owners: &List<Name>) -> Mem<Text>
    requires { HasPlans questions.now }
    ensures { IfOk result (λ text. text ≡ seen (asked state questions.now) owners_texts owners.now) }
{
    let mut text = Text::new(questions.alloc);
    for owner in owners.as_slice() {
        append_owner(&mut text, questions, owner)?;
    }
    Ok(text)
}

// Adds a line for each question of the owner.
fn append_owner(text: &mut Text, questions: &Questions, owner: &Name) -> Mem<()>
    requires { HasPlans questions.now }
    ensures { OnOk result (text.new ≡ text.old ++ seen (asked state questions.now) owners_texts (owner.now ∷ [])) }
{
    let owned = questions.store.owned(questions.context.config, owner)?;
    text.append(show_text(questions, &owned)?.bytes())
}
