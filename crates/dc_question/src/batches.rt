// Rows of writes that are done for questions.
ghost use Rattle.std.specs.Prelude.{◌≡◌, ◌⊎◌, [], Some, None, Err, OnOk, length, unwrap_or};
ghost use Rattle.dc_store.specs.Batches.{AreOver, AllDistinct, names_of, commit, first_refused};
ghost use Rattle.dc_store.specs.declared.store.StoreError.{StoreError};
ghost use Rattle.dc_question.specs.Asked.{asked, Leaves, SameButAll};
ghost use Rattle.dc_question.specs.Changes.{Does, batch_for};
ghost use Rattle.dc_question.specs.declared.errors.QuestionError.{QuestionError};

use crate::errors::QuestionError;
use crate::questions::Questions;
use dc_layer::Layer;
use dc_store::{Batch, StoreError, Write};
use dc_text::Name;

impl<'q> Questions<'q> {
    // Does all the writes, or none. A refusal names the first of the questions for which a write is refused.
    pub(crate) fn do_batch(
        &mut self,
        names: &[Name],
        batch: &mut Batch<'_>,
    ) -> Result<(), QuestionError>
        requires over { AreOver batch.old (length self.old.store.now.layers.items) }
        requires distinct { AllDistinct batch.old }
        ensures does { Leaves result (λ store at. batch_for store names.now batch.old) (asked state self.old) (asked state self.new) }
        ensures frame { SameButAll (names_of batch.old) (asked state self.old) (asked state self.new) }
    {
        match self.write_row(batch) {
            Ok(()) => Ok(()),
            Err(StoreError::OutOfMemory) => Err(QuestionError::OutOfMemory),
            Err(StoreError::Refused) => Err(self.refused_names(names, batch.as_slice())),
        }
    }

    // Does all the writes in the store, or none.
    pub(crate) fn write_row(&mut self, batch: &mut Batch<'_>) -> Result<(), StoreError>
        requires over { AreOver batch.old (length self.old.store.now.layers.items) }
        requires distinct { AllDistinct batch.old }
        ensures ok { OnOk result (commit (asked state self.old).store batch.old ≡ Some (asked state self.new).store) }
        ensures refused { result ≡ Err StoreError.Refused → commit (asked state self.old).store batch.old ≡ None }
        ensures unchanged { result ≡ Err StoreError.Refused → (asked state self.new).store ≡ (asked state self.old).store }
        ensures stays { result ≡ Err StoreError.Refused → batch.new ≡ batch.old }
        ensures frame { SameButAll (names_of batch.old) (asked state self.old) (asked state self.new) }
    {
        self.store.commit(batch)
    }

    // The question that can't be changed, where a write of the row is refused.
    pub(crate) fn refused_names(&self, names: &[Name], batch: &[Write<'_>]) -> QuestionError
        requires { AreOver batch.now (length self.now.store.now.layers.items) }
        ensures { (result ≡ QuestionError.OutOfMemory)
            ⊎ (result ≡ QuestionError.CantChange (unwrap_or (first_refused (asked state self.now).store.layers names.now batch.now) [])) }
    {
        match self.store.first_refused(names, batch) {
            Ok(Some(name)) => cant_change(name),
            Ok(None) => QuestionError::OutOfMemory,
            Err(error) => error.into(),
        }
    }
}

fn cant_change(name: &Name) -> QuestionError
    ensures { (result ≡ QuestionError.OutOfMemory) ⊎ (result ≡ QuestionError.CantChange name.now) }
{
    match name.copy() {
        Ok(name) => QuestionError::CantChange { name },
        Err(error) => error.into(),
    }
}
