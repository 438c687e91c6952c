// Questions that are bound to templates and owners.
ghost use Rattle.std.specs.Prelude.{◌≡◌, ◌∷◌, ◌++◌, [], IfOk, OnOk, option_map, true};
ghost use Rattle.std.specs.Option.{option_copied};
ghost use Rattle.dc_item.specs.Item.{no_parts};
ghost use Rattle.dc_conf.specs.Plans.{are_disjoint};
ghost use Rattle.dc_question.specs.Asked.{asked, HasPlans, seen, Leaves, SameButAll};
ghost use Rattle.dc_question.specs.Changes.{batch_for};
ghost use Rattle.dc_question.specs.Ownership.{register_batch, binding as binding_of, new_question as new_question_of, has_other_template as has_other_template_of, bind_batch as bind_row_of, template_write as template_write_of, write_beside as write_beside_of};
ghost use Rattle.dc_question.specs.Questions.{named_template as named_template_of, question as question_of};

use crate::beside::only;
use crate::errors::QuestionError;
use crate::questions::Questions;
use dc_item::{Item, ItemBuilder, Op};
use dc_layer::Layer;
use dc_store::{Batch, Write};
use dc_text::{List, Mem, Name, NameRefused, OutOfMemory};

impl<'q> Questions<'q> {
    // The name of a template that is there.
    pub(crate) fn template_named(&self, bytes: &[u8]) -> Mem<Option<Name>>
        requires over { HasPlans self.now }
        ensures { IfOk result (λ found. found ≡ option_map (λ _. bytes.now) (seen (asked state self.now) named_template_of bytes.now)) }
    {
        match Name::read(self.alloc, bytes) {
            Err(NameRefused::OutOfMemory) => Err(OutOfMemory),
            Err(NameRefused::Bad) => Ok(None),
            Ok(name) => match self.named_template(bytes) {
                None => Ok(None),
                Some(_) => Ok(Some(name)),
            },
        }
    }

    // Binds the question to a template that is there and to the owner.
    pub(crate) fn bind(
        &mut self,
        template: &Name,
        name: &Name,
        owner: &Name,
    ) -> Result<(), QuestionError>
        requires over { HasPlans self.old }
        requires apart { are_disjoint self.old.context.config self.old.context.templates ≡ true }
        ensures does { Leaves result
            (λ store at. batch_for store (name.now ∷ []) (register_batch store.layers at template.now name.now owner.now))
            (asked state self.old) (asked state self.new) }
        ensures frame { SameButAll (template.now ∷ name.now ∷ []) (asked state self.old) (asked state self.new) }
    {
        let op = Op::AddOwner(name.copy()?);
        let mut batch = self.bind_batch(template, op, name, owner)?;
        let names = only(self.alloc, name)?;
        self.do_batch(names.as_slice(), &mut batch)
    }

    // The two writes that bind a question to a template, on which an operation is done, and to an owner.
    fn bind_batch(&self, template: &Name, op: Op, name: &Name, owner: &Name) -> Mem<Batch<'q>>
        requires over { HasPlans self.now }
        ensures { IfOk result (λ batch. batch ≡ seen (asked state self.now) bind_row_of template.now op name.now owner.now) }
    {
        let first = self.template_write(template.copy()?, op, only(self.alloc, name)?)?;
        let mut batch = Batch::new(self.alloc);
        let mut builder = ItemBuilder::new(self.alloc);
        self.add_bound(&mut batch, &mut builder, first, name, owner)?;
        Ok(batch)
    }

    // Adds the write to a template for a question, and the one that binds the question to it and to the owner.
    pub(crate) fn add_bound(
        &self,
        batch: &mut Batch<'q>,
        builder: &mut ItemBuilder,
        first: Write<'q>,
        name: &Name,
        owner: &Name,
    ) -> Mem<()>
        requires over { HasPlans self.now }
        requires first { first ≡ seen (asked state self.now) template_write_of first.name first.op (name.now ∷ []) }
        requires empty { builder.old ≡ no_parts }
        ensures batch { OnOk result (batch.new ≡ batch.old ++ seen (asked state self.now) bind_row_of first.entry.name first.entry.op name.now owner.now) }
        ensures left { OnOk result (builder.new ≡ no_parts) }
    {
        let second = self.bound_write(builder, &first, name, owner)?;
        batch.push(first)?;
        batch.push(second)?;
        Ok(())
    }

    // The write that binds a question to the template of another write, beside that one, and to the owner.
    fn bound_write(
        &self,
        builder: &mut ItemBuilder,
        first: &Write<'q>,
        name: &Name,
        owner: &Name,
    ) -> Mem<Write<'q>>
        requires over { HasPlans self.now }
        requires first { first.now ≡ seen (asked state self.now) template_write_of first.now.name first.now.op (name.now ∷ []) }
        requires empty { builder.old ≡ no_parts }
        ensures write { IfOk result (λ w. w ≡ seen (asked state self.now) write_beside_of (first.now ∷ []) name.now
            (binding_of first.now.name owner.now (seen (asked state self.now) question_of name.now))) }
        ensures left { OnOk result (builder.new ≡ no_parts) }
    {
        let binding = binding(builder, &first.name, owner, self.question(name))?;
        self.write_after(first, name, binding)
    }
}

// What binds a question to a template and an owner.
fn binding(builder: &mut ItemBuilder, template: &Name, owner: &Name, item: Option<&Item>) -> Mem<Op>
    requires { builder.old ≡ no_parts }
    ensures op { IfOk result (λ op. op ≡ binding_of template.now owner.now (option_copied item.entry)) }
    ensures left { OnOk result (builder.new ≡ no_parts) }
{
    match item {
        None => Ok(Op::Put(new_question(builder, template, owner)?)),
        Some(_) => Ok(Op::AddOwner(owner.copy()?)),
    }
}

// The item of a new question of a template.
fn new_question(builder: &mut ItemBuilder, template: &Name, owner: &Name) -> Mem<Item>
    requires { builder.old ≡ no_parts }
    ensures item { IfOk result (λ item. item ≡ new_question_of template.now owner.now) }
    ensures left { OnOk result (builder.new ≡ no_parts) }
{
    let _ = builder.put_written_field(b"template", template.bytes())?;
    builder.put_owner(owner.bytes())?;
    builder.take()
}

/// Whether the question is bound to another template.
pub fn has_other_template(template: &Name, item: Option<&Item>) -> bool
    ensures { result ≡ has_other_template_of template.now (option_copied item.entry) }
{
    match item {
        None => false,
        Some(item) => match item.field(b"template") {
            None => true,
            Some(bound) => template.bytes() != bound,
        },
    }
}
