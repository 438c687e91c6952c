// Writes to templates, and to questions beside them.
ghost use Rattle.std.specs.Prelude.{◌≡◌, ◌∷◌, [], IfOk, OnOk, length};
ghost use Rattle.std.specs.FinMap as map;
ghost use Rattle.std.specs.Option.{option_copied};
ghost use Rattle.dc_item.specs.After.{after_at};
ghost use Rattle.dc_conf.specs.Plans.{IsOver};
ghost use Rattle.dc_store.specs.Batches.{AreOver, is_refused};
ghost use Rattle.dc_question.specs.Asked.{asked, HasPlans, seen};
ghost use Rattle.dc_question.specs.KindsLeft.{kind_left as kind_left_of, with_kind, with_kinds, item_kind as item_kind_of, kind_then as kind_then_of, write_by, is_on_owners as is_on_owners_of};
ghost use Rattle.dc_question.specs.Ownership.{kept_after, kind_tested as kind_tested_of, template_write, write_beside as write_beside_of, is_gone};
ghost use Rattle.dc_question.specs.Readings.{kind_by};
ghost use Rattle.dc_store.specs.Plans.{look, look_below};

use crate::kinds_left::KindsLeft;
use crate::questions::Questions;
use crate::values::kind;
use dc_item::{After, Effect, Item, Op};
use dc_layer::Layer;
use dc_store::{ReportedFor, Write};
use dc_template::Kind;
use dc_text::{List, Mem, Name, TextMap};
use std::alloc::Global;

impl<'q> Questions<'q> {
    // A write to a template, for some questions.
    pub(crate) fn template_write(&self, name: Name, op: Op, questions: List<Name>) -> Mem<Write<'q>>
        requires over { HasPlans self.now }
        ensures { IfOk result (λ w. w ≡ seen (asked state self.now) template_write name op questions) }
    {
        let kind = self.kind_tested(&name, &op)?;
        Ok(Write {
            plan: self.context.templates,
            name,
            kind,
            op,
            reported_for: ReportedFor::Names(questions),
        })
    }

    // The kind by which a write to a template is tested. An item that is put says it by itself.
    fn kind_tested(&self, name: &Name, op: &Op) -> Mem<Option<Kind>>
        requires over { HasPlans self.now }
        ensures { IfOk result (λ kind. kind ≡ seen (asked state self.now) kind_tested_of name.now op.now) }
    {
        if let Op::Put(made) = op {
            return Ok(kind(Some(made)));
        }
        kept_kind(self.named_template(name.bytes()), op)
    }

    // The kinds that writes to templates leave, of those that are taken.
    pub(crate) fn kinds_left<'k>(&self, batch: &[Write<'_>]) -> Mem<KindsLeft<'k>>
        requires over { HasPlans self.now }
        requires batch { AreOver batch.now (length self.now.store.now.layers.items) }
        ensures { IfOk result (λ kinds. kinds ≡ seen (asked state self.now) with_kinds map.empty batch.now) }
    {
        let mut kinds = TextMap::new(self.alloc);
        for write in batch {
            self.add_kind(&mut kinds, write)?;
        }
        Ok(KindsLeft::in_map(kinds))
    }

    // The kind that a write to a template leaves, where it is taken.
    pub(crate) fn kind_left_by<'k>(&self, write: &'k Write<'_>) -> Mem<KindsLeft<'k>>
        requires over { HasPlans self.now }
        requires write { IsOver write.now.plan (length self.now.store.now.layers.items) }
        requires tested { write.now.kind ≡ seen (asked state self.now) kind_tested_of write.now.name write.now.op }
        ensures { IfOk result (λ kinds. kinds ≡ seen (asked state self.now) with_kinds map.empty (write.now ∷ [])) }
    {
        if self.refuses(write)? {
            return Ok(KindsLeft::none(self.alloc));
        }
        let kind = self.kind_taken(write)?;
        Ok(KindsLeft::one(self.alloc, &write.name, kind))
    }

    // The kind that a write to a template leaves that is taken. Of an item that is put it is the one by which the write is tested.
    fn kind_taken(&self, write: &Write<'_>) -> Mem<Option<Kind>>
        requires over { HasPlans self.now }
        requires tested { write.now.kind ≡ seen (asked state self.now) kind_tested_of write.now.name write.now.op }
        ensures { IfOk result (λ kind. kind ≡ seen (asked state self.now) kind_left_of write.now.name write.now.op) }
    {
        if let Op::Put(_) = &write.op {
            return Ok(write.kind);
        }
        self.kind_left(&write.name, &write.op)
    }

    // Adds the kind that a write leaves, where it is taken and the first to its name.
    fn add_kind(&self, kinds: &mut TextMap<Option<Kind>>, write: &Write<'_>) -> Mem<()>
        requires over { HasPlans self.now }
        requires write { IsOver write.now.plan (length self.now.store.now.layers.items) }
        ensures { OnOk result (kinds.new ≡ seen (asked state self.now) with_kind kinds.old write.now) }
    {
        if kinds.contains(write.name.bytes()) || self.refuses(write)? {
            return Ok(());
        }
        let kind = self.kind_left(&write.name, &write.op)?;
        kinds.insert(write.name.copy()?.into_text(), kind)
    }

    fn refuses(&self, write: &Write<'_>) -> Mem<bool>
        requires { IsOver write.now.plan (length self.now.store.now.layers.items) }
        ensures { IfOk result (λ is. is ≡ (is_refused (asked state self.now).store.layers write.now)) }
    {
        let would_take = self
            .store
            .would_take(write.plan, &write.name, write.kind, &write.op)?;
        Ok(!would_take)
    }

    // The kind of a template once an operation on it is done.
    fn kind_left(&self, name: &Name, op: &Op) -> Mem<Option<Kind>>
        requires over { HasPlans self.now }
        ensures { IfOk result (λ kind. kind ≡ seen (asked state self.now) kind_left_of name.now op.now) }
    {
        if let Op::Put(made) = op {
            return Ok(kind(Some(made)));
        }
        if !is_on_owners(op) {
            return self.kind_made(name, op);
        }
        let item = self.template_seen(name);
        if goes(op, item)? {
            return Ok(kind(self.template_below(name)));
        }
        Ok(kind(item))
    }

    // The same by the item that the operation makes.
    fn kind_made(&self, name: &Name, op: &Op) -> Mem<Option<Kind>>
        requires over { HasPlans self.now }
        ensures { IfOk result (λ kind. kind ≡ seen (asked state self.now) kind_left_of name.now op.now) }
    {
        let item = self.template_seen(name);
        match op.at(item)? {
            After::Same => Ok(kind(item)),
            After::Changed(made) => Ok(kind(Some(&made))),
            After::Gone => Ok(kind(self.template_below(name))),
        }
    }

    // What is seen of a template.
    fn template_seen(&self, name: &Name) -> Option<&Item>
        requires over { HasPlans self.now }
        ensures { option_copied result ≡ look (asked state self.now).store.layers self.now.context.templates name.now }
    {
        self.store.look(self.context.templates, name)
    }

    // What is seen below the holder of a template.
    fn template_below(&self, name: &Name) -> Option<&Item>
        requires over { HasPlans self.now }
        ensures { option_copied result ≡ look_below (asked state self.now).store.layers self.now.context.templates name.now }
    {
        self.store.look_below(self.context.templates, name)
    }

    // What is seen below the holder of a question.
    fn question_below(&self, name: &Name) -> Option<&Item>
        requires over { HasPlans self.now }
        ensures { option_copied result ≡ look_below (asked state self.now).store.layers self.now.context.config name.now }
    {
        self.store.look_below(self.context.config, name)
    }

    // A write to a question beside writes that leave these kinds to templates.
    pub(crate) fn write_beside(&self, kinds: &KindsLeft<'_>, name: &Name, op: Op) -> Mem<Write<'q>>
        requires over { HasPlans self.now }
        ensures { IfOk result (λ w. w ≡ seen (asked state self.now) write_by kinds.now name.now op) }
    {
        let kind = self.kind_then(kinds, name, &op)?;
        Ok(Write {
            plan: self.context.config,
            name: name.copy()?,
            kind,
            op,
            reported_for: ReportedFor::Itself,
        })
    }

    // A write to a question beside one to a template.
    pub(crate) fn write_after(&self, first: &Write<'_>, name: &Name, op: Op) -> Mem<Write<'q>>
        requires over { HasPlans self.now }
        requires first { first.now ≡ seen (asked state self.now) template_write first.now.name first.now.op (name.now ∷ []) }
        ensures { IfOk result (λ w. w ≡ seen (asked state self.now) write_beside_of (first.now ∷ []) name.now op) }
    {
        let kinds = self.kind_left_by(first)?;
        self.write_beside(&kinds, name, op)
    }

    // The kind of a question once an operation on it is done.
    fn kind_then(&self, kinds: &KindsLeft<'_>, name: &Name, op: &Op) -> Mem<Option<Kind>>
        requires over { HasPlans self.now }
        ensures { IfOk result (λ kind. kind ≡ seen (asked state self.now) kind_then_of kinds.now name.now op.now) }
    {
        if let Op::Put(made) = op {
            return Ok(self.item_kind(kinds, Some(made)));
        }
        if !is_on_owners(op) {
            return self.item_kind_made(kinds, name, op);
        }
        let item = self.question(name);
        if goes(op, item)? {
            return Ok(self.item_kind(kinds, self.question_below(name)));
        }
        Ok(self.item_kind(kinds, item))
    }

    // The same by the item that the operation makes.
    fn item_kind_made(&self, kinds: &KindsLeft<'_>, name: &Name, op: &Op) -> Mem<Option<Kind>>
        requires over { HasPlans self.now }
        ensures { IfOk result (λ kind. kind ≡ seen (asked state self.now) kind_then_of kinds.now name.now op.now) }
    {
        let item = self.question(name);
        match op.at(item)? {
            After::Same => Ok(self.item_kind(kinds, item)),
            After::Changed(made) => Ok(self.item_kind(kinds, Some(&made))),
            After::Gone => Ok(self.item_kind(kinds, self.question_below(name))),
        }
    }

    // The kind of a question's item.
    fn item_kind(&self, kinds: &KindsLeft<'_>, item: Option<&Item>) -> Option<Kind>
        requires over { HasPlans self.now }
        ensures { result ≡ seen (asked state self.now) item_kind_of kinds.now (option_copied item.entry) }
    {
        let template = item?.field(b"template")?;
        match kinds.get(template) {
            Some(kind) => kind,
            None => kind(self.named_template(template)),
        }
    }
}

// The kind of a template once an operation is done, and as it was where it goes.
fn kept_kind(item: Option<&Item>, op: &Op) -> Mem<Option<Kind>>
    ensures { IfOk result (λ kind. kind ≡ kind_by (kept_after (option_copied item.entry) (after_at op.now (option_copied item.entry)))) }
{
    if is_on_owners(op) {
        return Ok(kind(item));
    }
    kept_kind_made(item, op)
}

// The same by the item that the operation makes.
fn kept_kind_made(item: Option<&Item>, op: &Op) -> Mem<Option<Kind>>
    ensures { IfOk result (λ kind. kind ≡ kind_by (kept_after (option_copied item.entry) (after_at op.now (option_copied item.entry)))) }
{
    match op.at(item)? {
        After::Same => Ok(kind(item)),
        After::Changed(made) => Ok(kind(Some(&made))),
        After::Gone => Ok(kind(item)),
    }
}

// Whether the operation changes owners alone.
fn is_on_owners(op: &Op) -> bool
    ensures { result ≡ is_on_owners_of op.now }
{
    matches!(op, Op::AddOwner(_) | Op::DropOwners(_))
}

/// Whether the item goes by the operation.
pub fn goes(op: &Op, item: Option<&Item>) -> Mem<bool>
    ensures { IfOk result (λ does. does ≡ is_gone (after_at op.now (option_copied item.entry))) }
{
    match op.effect(item)? {
        Effect::Gone => Ok(true),
        _ => Ok(false),
    }
}

/// A list of one name.
pub fn only(alloc: Global, name: &Name) -> Mem<List<Name>>
    ensures { IfOk result (λ names. names ≡ name.now ∷ []) }
{
    let mut names = List::new(alloc);
    names.push(name.copy()?)?;
    Ok(names)
}
