// Templates of a file, as they are put with their questions.
ghost use Rattle.std.specs.Prelude.{◌≡◌, ◌⊎◌, ◌∷◌, ◌++◌, [], Some, IfOk, OnOk, length, true, unwrap_or, map as each};
ghost use Rattle.std.specs.FinMap as map;
ghost use Rattle.std.specs.Option.{option_copied, option_map_or};
ghost use Rattle.dc_conf.specs.Plans.{are_disjoint};
ghost use Rattle.dc_text.specs.Maps.{AreDistinct};
ghost use Rattle.dc_text.specs.Settled.{settled};
ghost use Rattle.dc_item.specs.Item.{no_parts};
ghost use Rattle.dc_store.specs.Batches.{AreOver, AllDistinct, names_of, first_refused};
ghost use Rattle.dc_question.specs.Asked.{asked, HasPlans, seen, Leaves, SameButAll};
ghost use Rattle.dc_question.specs.Changes.{Does, batch_for};
ghost use Rattle.dc_question.specs.Ownership.{bind_batch as bind_row_of, template_write as template_write_of, bound_elsewhere as bound_elsewhere_of, load_batch as load_row_of, loaded_template, put_loaded};
ghost use Rattle.dc_question.specs.Readings.{kind_by};
ghost use Rattle.dc_question.specs.declared.errors.QuestionError.{QuestionError};

use crate::binding::has_other_template;
use crate::errors::QuestionError;
use crate::questions::Questions;
use dc_item::{Item, ItemBuilder, Op};
use dc_layer::Layer;
use dc_store::{Batch, ReportedFor, StoreError, Write};
use dc_template::Template;
use dc_text::{FieldKey, List, Mem, Name, Text};
use std::alloc::Global;

impl<'q> Questions<'q> {
    // The first template whose question is bound to another.
    pub(crate) fn bound_elsewhere<'l>(&self, list: &'l [Template]) -> Option<&'l Template>
        requires over { HasPlans self.now }
        ensures { option_copied result ≡ seen (asked state self.now) bound_elsewhere_of list.now }
    {
        for template in list {
            if has_other_template(template.name(), self.question(template.name())) {
                return Some(template);
            }
        }
        None
    }

    // Puts the templates, each with its question.
    pub(crate) fn load(&mut self, owner: &Name, list: &[Template]) -> Result<(), QuestionError>
        requires names { AreDistinct (each (λ t. t.name) list.now) }
        requires over { HasPlans self.old }
        requires apart { are_disjoint self.old.context.config self.old.context.templates ≡ true }
        ensures does { Leaves result
            (λ store at. batch_for store (each (λ t. t.name) list.now) (load_row_of store.layers at owner.now list.now))
            (asked state self.old) (asked state self.new) }
        ensures frame { SameButAll (names_of (seen (asked state self.old) load_row_of owner.now list.now)) (asked state self.old) (asked state self.new) }
    {
        let mut batch = self.load_batch(owner, list)?;
        self.do_load(list, &mut batch)
    }

    // Does all the writes, or none. The names of the templates are asked for only where a write is refused.
    fn do_load(&mut self, list: &[Template], batch: &mut Batch<'_>) -> Result<(), QuestionError>
        requires over { AreOver batch.old (length self.old.store.now.layers.items) }
        requires distinct { AllDistinct batch.old }
        ensures does { Leaves result (λ store at. batch_for store (each (λ t. t.name) list.now) batch.old) (asked state self.old) (asked state self.new) }
        ensures frame { SameButAll (names_of batch.old) (asked state self.old) (asked state self.new) }
    {
        match self.write_row(batch) {
            Ok(()) => Ok(()),
            Err(StoreError::OutOfMemory) => Err(QuestionError::OutOfMemory),
            Err(StoreError::Refused) => Err(self.load_held_up(list, batch.as_slice())),
        }
    }

    // The question of the first template for which a write of the row is refused.
    fn load_held_up(&self, list: &[Template], batch: &[Write<'_>]) -> QuestionError
        requires { AreOver batch.now (length self.now.store.now.layers.items) }
        ensures { (result ≡ QuestionError.OutOfMemory)
            ⊎ (result ≡ QuestionError.CantChange (unwrap_or (first_refused (asked state self.now).store.layers (each (λ t. t.name) list.now) batch.now) [])) }
    {
        match names(self.alloc, list) {
            Ok(names) => self.refused_names(names.as_slice(), batch),
            Err(error) => error.into(),
        }
    }

    // The writes that put the templates, each with its question.
    fn load_batch(&self, owner: &Name, list: &[Template]) -> Mem<Batch<'q>>
        requires over { HasPlans self.now }
        ensures { IfOk result (λ batch. batch ≡ seen (asked state self.now) load_row_of owner.now list.now) }
    {
        let mut batch = Batch::with_capacity(self.alloc, list.len().saturating_mul(2))?;
        let mut builder = ItemBuilder::new(self.alloc);
        for template in list {
            self.add_load(&mut batch, &mut builder, owner, template)?;
        }
        Ok(batch)
    }

    // Adds the two writes that put a template and bind its question. Both items are put together in the builder.
    fn add_load(
        &self,
        batch: &mut Batch<'q>,
        builder: &mut ItemBuilder,
        owner: &Name,
        template: &Template,
    ) -> Mem<()>
        requires over { HasPlans self.now }
        requires empty { builder.old ≡ no_parts }
        ensures batch { OnOk result (batch.new ≡ batch.old
            ++ seen (asked state self.now) bind_row_of template.now.name (seen (asked state self.now) put_loaded template.now) template.now.name owner.now) }
        ensures left { OnOk result (builder.new ≡ no_parts) }
    {
        let first = self.put_write(builder, template)?;
        self.add_bound(batch, builder, first, template.name(), owner)?;
        Ok(())
    }

    // The write that puts a template for the question of its name.
    fn put_write(&self, builder: &mut ItemBuilder, template: &Template) -> Mem<Write<'q>>
        requires over { HasPlans self.now }
        requires empty { builder.old ≡ no_parts }
        ensures write { IfOk result (λ w. w
            ≡ seen (asked state self.now) template_write_of template.now.name (seen (asked state self.now) put_loaded template.now) (template.now.name ∷ [])) }
        ensures left { OnOk result (builder.new ≡ no_parts) }
    {
        let name = template.name();
        let old = self.named_template(name.bytes());
        let item = loaded_item(builder, template, old)?;
        Ok(Write {
            plan: self.context.templates,
            name: name.copy()?,
            kind: Some(template.kind()),
            op: Op::Put(item),
            reported_for: ReportedFor::Itself,
        })
    }
}

// The item of a template, which keeps the owners that it had.
fn loaded_item(builder: &mut ItemBuilder, template: &Template, old: Option<&Item>) -> Mem<Item>
    requires { builder.old ≡ no_parts }
    ensures item { IfOk result (λ item. item ≡ loaded_template template.now (option_copied old.entry)) }
    ensures kind { IfOk result (λ item. kind_by (Some item) ≡ Some template.now.kind) }
    ensures left { OnOk result (builder.new ≡ no_parts) }
{
    put_fields(builder, template.fields())?;
    keep_owners(builder, old)?;
    builder.put_owner(template.name().bytes())?;
    builder.take()
}

// Puts the settled fields where none is. Of two fields with one key the first stands.
fn put_fields(builder: &mut ItemBuilder, fields: &[(FieldKey, Text)]) -> Mem<()>
    requires { builder.old ≡ no_parts }
    ensures { OnOk result (builder.new ≡ record no_parts { fields = map.from_entries (each (λ field. (field.0, settled field.1)) fields.now) }) }
{
    for field in fields {
        let _ = builder.put_written_field(field.0.bytes(), field.1.bytes())?;
    }
    Ok(())
}

#[tactic(auto, using(crate::proofs::LoadLemmas::no_owners))]
// Puts the owners that the template had, where there are none.
fn keep_owners(builder: &mut ItemBuilder, old: Option<&Item>) -> Mem<()>
    requires { builder.old.owners ≡ map.empty }
    ensures { OnOk result (builder.new ≡ record builder.old { owners = option_map_or (λ parts. parts.owners) (option_copied old.entry) map.empty }) }
{
    match old {
        None => Ok(()),
        Some(old) => builder.put_owners_of(old),
    }
}

// The names of the templates.
fn names(alloc: Global, list: &[Template]) -> Mem<List<Name>>
    ensures { IfOk result (λ names. names ≡ each (λ t. t.name) list.now) }
{
    let mut names = List::new(alloc);
    for template in list {
        names.push(template.name().copy()?)?;
    }
    Ok(names)
}
