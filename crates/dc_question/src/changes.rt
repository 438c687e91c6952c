// Changes of questions.
ghost use Rattle.std.specs.Prelude.{◌≡◌, ◌⊎◌, Option, Some, Ok, Err, OnOk, is_some, true, false};
ghost use Rattle.dc_store.specs.Plans.{write, would_take};
ghost use Rattle.dc_question.specs.Asked.{asked, HasPlans, seen, Leaves, SameBut};
ghost use Rattle.dc_question.specs.Changes.{changed, value_set, flag_set, variable_set, value_reset, Does};
ghost use Rattle.dc_question.specs.Questions.{question as question_of};
ghost use Rattle.dc_template.specs.declared.kinds.Kind.{Kind as KindOf};

use crate::errors::QuestionError;
use crate::questions::Questions;
use crate::values::kind;
use dc_item::Op;
use dc_layer::Layer;
use dc_store::StoreError;
use dc_template::Kind;
use dc_text::{FieldKey, FlagName, Mem, Name, VarKey, settle};

impl<'q> Questions<'q> {
    /// Sets the value of the question to the settled bytes. `CantChange` comes exactly where the store refuses the write.
    pub fn set(&mut self, name: &Name, value: &[u8]) -> Result<(), QuestionError>
        requires { HasPlans self.old }
        ensures does { Leaves result (λ store at. value_set store at name.now value.now) (asked state self.old) (asked state self.new) }
        ensures frame { SameBut name.now (asked state self.old) (asked state self.new) }
    {
        let key = FieldKey::known(self.alloc, b"value")?;
        let value = settle(self.alloc, value)?;
        self.change(name, &Op::SetField(key, value))
    }

    /// Makes the flag of the question true, or not.
    pub fn set_flag(&mut self, name: &Name, flag: &FlagName, on: bool) -> Result<(), QuestionError>
        requires { HasPlans self.old }
        ensures does { Leaves result (λ store at. flag_set store at name.now flag.now on) (asked state self.old) (asked state self.new) }
        ensures frame { SameBut name.now (asked state self.old) (asked state self.new) }
    {
        let flag = flag.copy()?;
        self.change(name, &Op::SetFlag(flag, on))
    }

    /// Sets the variable of the question, which texts of its template may refer to, to the settled bytes.
    pub fn subst(&mut self, name: &Name, key: &VarKey, value: &[u8]) -> Result<(), QuestionError>
        requires { HasPlans self.old }
        ensures does { Leaves result (λ store at. variable_set store at name.now key.now value.now) (asked state self.old) (asked state self.new) }
        ensures frame { SameBut name.now (asked state self.old) (asked state self.new) }
    {
        let key = key.copy()?;
        let value = settle(self.alloc, value)?;
        self.change(name, &Op::SetVar(key, value))
    }

    /// Takes the value of the question away, so that its template's default holds again, and the flag `seen`.
    pub fn reset(&mut self, name: &Name) -> Result<(), QuestionError>
        requires { HasPlans self.old }
        ensures does { Leaves result (λ store at. value_reset store at name.now) (asked state self.old) (asked state self.new) }
        ensures frame { SameBut name.now (asked state self.old) (asked state self.new) }
    {
        let Some(item) = self.question(name) else {
            return Err(QuestionError::NoQuestion { name: name.copy()? });
        };
        let item = item.without(b"value", b"seen")?;
        self.change(name, &Op::Put(item))
    }

    // Does an operation on a question that is there. Mostly the topmost layer takes it, and then no kind is looked for.
    fn change(&mut self, name: &Name, op: &Op) -> Result<(), QuestionError>
        requires { HasPlans self.old }
        ensures does { Leaves result (λ store at. changed store at name.now op.now) (asked state self.old) (asked state self.new) }
        ensures frame { SameBut name.now (asked state self.old) (asked state self.new) }
    {
        match self.change_on_top(name, op) {
            Ok(true) => Ok(()),
            Ok(false) => self.change_by_kind(name, op),
            Err(error) => Err(error.into()),
        }
    }

    // Tries the operation on the topmost layer, and answers whether it was done.
    fn change_on_top(&mut self, name: &Name, op: &Op) -> Mem<bool>
        requires { HasPlans self.old }
        ensures there { result ≡ Ok true → is_some (seen (asked state self.old) question_of name.now) ≡ true }
        ensures done { result ≡ Ok true → (kind : Option KindOf)
            → write (asked state self.old).store self.old.context.config name.now kind op.now ≡ Some (asked state self.new).store }
        ensures not_done { result ≡ Ok false → (asked state self.new).store ≡ (asked state self.old).store }
        ensures frame { SameBut name.now (asked state self.old) (asked state self.new) }
    {
        self.store.change_on_top(self.context.config, name, op)
    }

    // Does an operation on a question that is there, with the kind of its template.
    fn change_by_kind(&mut self, name: &Name, op: &Op) -> Result<(), QuestionError>
        requires { HasPlans self.old }
        ensures does { Leaves result (λ store at. changed store at name.now op.now) (asked state self.old) (asked state self.new) }
        ensures frame { SameBut name.now (asked state self.old) (asked state self.new) }
    {
        let Some(item) = self.question(name) else {
            return Err(QuestionError::NoQuestion { name: name.copy()? });
        };
        let kind = kind(self.template(item));
        match self.write(name, kind, op) {
            Ok(()) => Ok(()),
            Err(error) => Err(refusal(error, name)),
        }
    }

    // Writes to the plan of questions.
    fn write(&mut self, name: &Name, kind: Option<Kind>, op: &Op) -> Result<(), StoreError>
        requires { HasPlans self.old }
        ensures ok { OnOk result (write (asked state self.old).store self.old.context.config name.now kind op.now ≡ Some (asked state self.new).store) }
        ensures refused { result ≡ Err StoreError.Refused
            → would_take (asked state self.old).store.layers self.old.context.config name.now kind op.now ≡ false }
        ensures unchanged { result ≡ Err StoreError.Refused → (asked state self.new).store ≡ (asked state self.old).store }
        ensures frame { SameBut name.now (asked state self.old) (asked state self.new) }
    {
        self.store.change(self.context.config, name, kind, op)
    }
}

// Why the question isn't changed, where the store refuses.
fn refusal(error: StoreError, name: &Name) -> QuestionError
    ensures refused { error ≡ StoreError.Refused → (result ≡ QuestionError.OutOfMemory) ⊎ (result ≡ QuestionError.CantChange name.now) }
    ensures memory { error ≡ StoreError.OutOfMemory → result ≡ QuestionError.OutOfMemory }
{
    match error {
        StoreError::OutOfMemory => QuestionError::OutOfMemory,
        StoreError::Refused => match name.copy() {
            Ok(name) => QuestionError::CantChange { name },
            Err(error) => error.into(),
        },
    }
}
