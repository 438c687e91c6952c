// Values that several questions get at once.
ghost use Rattle.std.specs.Prelude.{◌≡◌, IfOk, map as each};
ghost use Rattle.dc_text.specs.Maps.{AreDistinct};
ghost use Rattle.dc_question.specs.Asked.{asked, HasPlans, seen, Leaves, SameButAll};
ghost use Rattle.dc_question.specs.Changes.{value_write as value_write_of, values_set};

use crate::errors::QuestionError;
use crate::questions::Questions;
use dc_item::Op;
use dc_layer::Layer;
use dc_store::{Batch, ReportedFor, Write};
use dc_text::{FieldKey, List, Mem, Name, Text, settle};
use std::alloc::Global;

impl<'q> Questions<'q> {
    /// Sets the values of the questions, each to the settled bytes: all of them, or none (debconf-devel(7), GO). `CantChange` names
    /// the first of them that can't be changed. A question that isn't there stays so.
    pub fn set_all(&mut self, answers: &[(Name, Text)]) -> Result<(), QuestionError>
        requires names { AreDistinct (each (λ a. a.0) answers.now) }
        requires over { HasPlans self.old }
        ensures does { Leaves result (λ store at. values_set store at answers.now) (asked state self.old) (asked state self.new) }
        ensures frame { SameButAll (each (λ a. a.0) answers.now) (asked state self.old) (asked state self.new) }
    {
        let mut batch = self.value_batch(answers)?;
        let names = names(self.alloc, answers)?;
        self.do_batch(names.as_slice(), &mut batch)
    }

    // The writes that give the questions their values.
    fn value_batch(&self, answers: &[(Name, Text)]) -> Mem<Batch<'q>>
        requires over { HasPlans self.now }
        ensures { IfOk result (λ batch. batch ≡ each (seen (asked state self.now) value_write_of) answers.now) }
    {
        let mut batch = Batch::new(self.alloc);
        for answer in answers {
            batch.push(self.value_write(&answer.0, &answer.1)?)?;
        }
        Ok(batch)
    }

    // The write that gives a question a value.
    fn value_write(&self, name: &Name, value: &Text) -> Mem<Write<'q>>
        requires over { HasPlans self.now }
        ensures { IfOk result (λ w. w ≡ seen (asked state self.now) value_write_of (name.now, value.now)) }
    {
        let key = FieldKey::known(self.alloc, b"value")?;
        let value = settle(self.alloc, value.bytes())?;
        Ok(Write {
            plan: self.context.config,
            name: name.copy()?,
            kind: self.kind(name),
            op: Op::SetField(key, value),
            reported_for: ReportedFor::Itself,
        })
    }
}

// The names of the questions.
fn names(alloc: Global, answers: &[(Name, Text)]) -> Mem<List<Name>>
    ensures { IfOk result (λ names. names ≡ each (λ a. a.0) answers.now) }
{
    let mut names = List::new(alloc);
    for answer in answers {
        names.push(answer.0.copy()?)?;
    }
    Ok(names)
}
