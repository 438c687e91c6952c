// The questions of a session.
ghost use Rattle.std.specs.Prelude.{◌≡◌, [], length, true};
ghost use Rattle.std.proofs.Props.{props};
ghost use Rattle.dc_conf.specs.Plans.{are_disjoint};
ghost use Rattle.dc_question.specs.Questions.{IsSetOver};
ghost use Rattle.dc_session.specs.Over.{everywhere_prop};

use dc_layer::Layer;
use dc_question::Questions;
use dc_text::{Name, Text};
use std::alloc::Global;
use std::marker::PhantomData;

/// Questions as a session works on them: by plans that speak of the layers of their store and share none, and for an owner, for whom
/// questions are registered.
#[derive(Drop)]
pub struct SessionQuestions<'s> {
    pub questions: Questions<'s>,
    pub owner: &'s Name,
    of: PhantomData<Box<dyn Layer>>,
    ghost over: { IsSetOver questions.context (length questions.store.now.layers.items) } by { Prim.hlevel (props, everywhere_prop) },
    ghost apart: { are_disjoint questions.context.config questions.context.templates ≡ true } by { Prim.hlevel props },
}

impl<'s> SessionQuestions<'s> {
    /// These questions, for this owner.
    pub fn new(questions: Questions<'s>, owner: &'s Name) -> SessionQuestions<'s>
        requires over { IsSetOver questions.context (length questions.store.now.layers.items) }
        requires apart { are_disjoint questions.context.config questions.context.templates ≡ true }
        ensures store { result.questions.store.now ≡ questions.entry.store.now }
        ensures borrows { result.questions.store.ghost_name ≡ questions.entry.store.ghost_name }
        ensures context { result.questions.context ≡ questions.entry.context }
        ensures owner { result.owner.now ≡ owner.now }
    {
        SessionQuestions {
            questions,
            owner,
            of: PhantomData,
        }
    }

    /// Hands out what the layers told, and forgets it.
    pub fn take_told(&mut self) -> Text
        ensures told { result ≡ self.old.questions.store.now.told }
        ensures forgotten { self.new.questions.store.now.told ≡ [] }
        ensures layers { self.new.questions.store.now.layers.items ≡ self.old.questions.store.now.layers.items }
        ensures context { self.new.questions.context ≡ self.old.questions.context }
        ensures owner { self.new.owner.now ≡ self.old.owner.now }
        ensures borrows { self.new.questions.store.ghost_name ≡ self.old.questions.store.ghost_name }
    {
        told_of(&mut self.questions)
    }

    /// The layers, as the session left them. Their store keeps none.
    pub fn into_layers(self, alloc: Global) -> Vec<Box<dyn Layer>>
        requires plans { IsSetOver self.questions.context (length self.questions.store.now.layers.items) }
        ensures { result.items ≡ self.entry.questions.store.now.layers.items }
    {
        let SessionQuestions {
            questions,
            owner: _,
            of: _,
        } = self;
        let Questions {
            alloc: _,
            store,
            context: _,
        } = questions;
        std::mem::replace(&mut store.layers, Vec::new(alloc))
    }
}

// What the layers told, which is forgotten then.
fn told_of(questions: &mut Questions<'_>) -> Text
    ensures told { result ≡ questions.old.store.now.told }
    ensures forgotten { questions.new.store.now.told ≡ [] }
    ensures layers { questions.new.store.now.layers.items ≡ questions.old.store.now.layers.items }
    ensures context { questions.new.context ≡ questions.old.context }
    ensures borrows { questions.new.store.ghost_name ≡ questions.old.store.ghost_name }
{
    let store = &mut *questions.store;
    std::mem::replace(&mut store.told, Text::new(questions.alloc))
}
