// Selections over layers, behind a link.
ghost use Rattle.std.specs.Prelude.{◌≡◌, length, map as each, true};
ghost use Rattle.dc_conf.specs.Plans.{IsOver, are_disjoint};
ghost use Rattle.dc_conf.specs.Trees.{shape};
ghost use Rattle.dc_preseed.specs.Selecting.{HasSelected, IsSelected, borrows_of, machine_of, selections_over};

use crate::selected::{Choices, SelectedQuestions};
use crate::selecting::Selector;
use dc_conf::Plan;
use dc_layer::Layer;
use dc_outside::Link;
use dc_question::Questions;
use dc_serve::{Conversation, LinkEnd, serve_link};
use dc_store::Store;
use dc_text::{OutOfMemory, Text};
use std::alloc::Global;

/// What selections came to.
#[derive(Drop)]
pub struct Selected {
    /// How the link ended, which is never `Broken`.
    pub end: LinkEnd<OutOfMemory>,
    /// The code of the last reply so far. No line has one, so it is the one that was handed in.
    pub last_code: u8,
    /// Whether a line was refused.
    pub refused: bool,
}

/// Takes the selections that come on the link, into these layers, by the plans of questions and of templates, for a user of the language
/// (debconf-set-selections(1)). Each joined line is done before the next is taken, and told on `err`: first what the line has to tell, and then what
/// the layers told. At the end of the input what still goes on is a line; where the link failed or too many bytes came it is passed over. The
/// layers are given back as the lines left them, in their order.
pub fn take_selections<L: Link, E: Link>(
    alloc: Global,
    io: &mut L,
    err: &mut E,
    layers: &mut Vec<Box<dyn Layer>>,
    config: &Plan,
    templates: &Plan,
    lang: &Text,
    choices: Choices,
    last_code: u8,
) -> Selected
    requires config { IsOver (shape config.now) (length layers.old.items) }
    requires templates { IsOver (shape templates.now) (length layers.old.items) }
    requires disjoint { are_disjoint (shape config.now) (shape templates.now) ≡ true }
    ensures { HasSelected
        (selections_over (each state layers.old.items) (record { config = shape config.now; templates = shape templates.now; lang = lang.now }) choices (E.link err.old))
        (each state layers.new.items) (E.link err.new) result.refused (L.link io.old) (L.link io.new) result.end last_code result.last_code }
{
    let mut store = Store::new(alloc, std::mem::replace(layers, Vec::new(alloc)));
    let questions = Questions::new(alloc, &mut store, config, templates, lang);
    let selections = SelectedQuestions::new(questions, choices);
    let mut selector = Selector { selections, err };
    let Conversation { end, last_code } = serve_selections(alloc, io, &mut selector, last_code);
    let Selector {
        selections,
        err: err_left,
    } = selector;
    let_go(err_left);
    let (layers_left, refused) = selections.into_layers(alloc);
    *layers = layers_left;
    Selected {
        end,
        last_code,
        refused,
    }
}

// Nothing more is done with it.
fn let_go<X>(x: &mut X)
    ensures { x.new ≡ x.old }
{}

// Serves the link by these selections, and finishes them.
fn serve_selections<'s, 'e, L: Link, E: Link>(
    alloc: Global,
    io: &mut L,
    selector: &mut Selector<'s, 'e, E>,
    last_code: u8,
) -> Conversation<OutOfMemory>
    ensures selected { IsSelected (machine_of state E.link selector.old) (machine_of state E.link selector.new)
        (L.link io.old) (L.link io.new) result.end last_code result.last_code }
    ensures borrows { borrows_of selector.new ≡ borrows_of selector.old }
{
    let Conversation { end, last_code } = serve_link(alloc, io, selector, last_code);
    let end = selector.finish(end);
    Conversation { end, last_code }
}
