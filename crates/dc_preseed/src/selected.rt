// Questions that selections answer.
ghost use Rattle.std.specs.Prelude.{◌≡◌, [], length, true, false};
ghost use Rattle.std.proofs.Props.{props};
ghost use Rattle.dc_conf.specs.Plans.{are_disjoint};
ghost use Rattle.dc_question.specs.Questions.{IsSetOver};
ghost use Rattle.dc_preseed.specs.Joiner.{at_start};
ghost use Rattle.dc_preseed.specs.Over.{everywhere_prop};

use crate::joining::Joiner;
use dc_layer::Layer;
use dc_question::Questions;
use dc_text::Text;
use std::alloc::Global;
use std::marker::PhantomData;

/// How lines of selections are taken (debconf-set-selections(1)).
#[derive(Clone, Copy, Debug, PartialEq, Eq)]
pub struct Choices {
    /// Whether each line that is taken is told.
    pub verbose: bool,
    /// Whether lines are only read.
    pub check: bool,
    /// Whether questions stay unseen.
    pub unseen: bool,
}

/// Selections that are taken one after another: their questions, which stand in plans that share no layer, the joined line that goes on, what the last
/// line has to tell yet, and whether a line was refused.
#[derive(Drop)]
pub struct SelectedQuestions<'s> {
    pub questions: Questions<'s>,
    pub joiner: Joiner,
    pub choices: Choices,
    pub untold: Text,
    pub refused: bool,
    of: PhantomData<Box<dyn Layer>>,
    ghost over: { IsSetOver questions.context (length questions.store.now.layers.items) } by { Prim.hlevel (props, everywhere_prop) },
    ghost apart: { are_disjoint questions.context.config questions.context.templates ≡ true } by { Prim.hlevel props },
}

impl<'s> SelectedQuestions<'s> {
    /// These questions, before the first line.
    pub fn new(questions: Questions<'s>, choices: Choices) -> SelectedQuestions<'s>
        requires over { IsSetOver questions.context (length questions.store.now.layers.items) }
        requires apart { are_disjoint questions.context.config questions.context.templates ≡ true }
        ensures store { result.questions.store.now ≡ questions.entry.store.now }
        ensures borrows { result.questions.store.ghost_name ≡ questions.entry.store.ghost_name }
        ensures context { result.questions.context ≡ questions.entry.context }
        ensures choices { result.choices ≡ choices }
        ensures start { result.joiner ≡ at_start }
        ensures told { result.untold ≡ [] }
        ensures refused { result.refused ≡ false }
    {
        let alloc = questions.alloc;
        SelectedQuestions {
            questions,
            joiner: Joiner::new(alloc),
            choices,
            untold: Text::new(alloc),
            refused: false,
            of: PhantomData,
        }
    }

    /// The layers, as the selections left them, and whether a line was refused. Their store keeps none.
    pub fn into_layers(self, alloc: Global) -> (Vec<Box<dyn Layer>>, bool)
        ensures layers { result.0.items ≡ self.entry.questions.store.now.layers.items }
        ensures refused { result.1 ≡ self.entry.refused }
    {
        let SelectedQuestions {
            questions,
            joiner: _,
            choices: _,
            untold: _,
            refused,
            of: _,
        } = self;
        let Questions {
            alloc: _,
            store,
            context: _,
        } = questions;
        (
            std::mem::replace(&mut store.layers, Vec::new(alloc)),
            refused,
        )
    }
}
