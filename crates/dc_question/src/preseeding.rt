// Questions that are answered before they are asked.
ghost use Rattle.std.specs.Prelude.{◌≡◌, ◌∷◌, ◌++◌, [], IfOk, None, OnOk, Some, if◌then◌else◌, true, codes};
ghost use Rattle.std.specs.Option.{option_copied};
ghost use Rattle.std.specs.FinMap as map;
ghost use Rattle.dc_conf.specs.Plans.{are_disjoint};
ghost use Rattle.dc_question.specs.Asked.{asked, HasPlans, seen, Leaves, SameBut};
ghost use Rattle.dc_question.specs.Ownership.{write_beside as write_beside_of};
ghost use Rattle.dc_question.specs.Preseeding.{answered as answered_of, made_template as made_template_of, preseed_batch as preseed_batch_of, preseeded, question_then as question_then_of, template_made as template_made_of};

use crate::errors::QuestionError;
use crate::kinds_left::KindsLeft;
use crate::questions::Questions;
use dc_item::{Item, ItemBuilder, Op};
use dc_layer::Layer;
use dc_store::{Batch, ReportedFor, Write};
use dc_template::Kind;
use dc_text::{FieldKey, FlagName, Mem, Name, OutOfMemory, settle};
use std::alloc::Global;
use std::slice::from_ref;

impl<'q> Questions<'q> {
    /// Answers the question before it is asked (debconf-set-selections(1)): it gets the settled value and one more owner, and its flag
    /// `seen` is set unless that isn't wanted. One that isn't there is made, of the template of its name, and where that isn't there
    /// either, it is made first, of this kind. `CantChange` comes exactly where the store refuses one of the writes.
    pub fn preseed(
        &mut self,
        owner: &Name,
        name: &Name,
        kind: Kind,
        value: &[u8],
        unseen: bool,
    ) -> Result<(), QuestionError>
        requires over { HasPlans self.old }
        requires apart { are_disjoint self.old.context.config self.old.context.templates ≡ true }
        ensures does { Leaves result
            (λ store at. preseeded store at owner.now name.now kind value.now unseen)
            (asked state self.old) (asked state self.new) }
        ensures frame { SameBut name.now (asked state self.old) (asked state self.new) }
    {
        let mut batch = self.preseed_batch(owner, name, kind, value, unseen)?;
        self.do_batch(from_ref(name), &mut batch)
    }

    // The writes that answer a question.
    fn preseed_batch(
        &self,
        owner: &Name,
        name: &Name,
        kind: Kind,
        value: &[u8],
        unseen: bool,
    ) -> Mem<Batch<'q>>
        requires over { HasPlans self.now }
        ensures { IfOk result (λ batch. batch ≡ seen (asked state self.now) preseed_batch_of owner.now name.now kind value.now unseen) }
    {
        let old = self.question(name);
        let item = answered(self.alloc, old, owner, name, value, unseen)?;
        if old.is_some() || self.named_template(name.bytes()).is_some() {
            self.lone_batch(name, Op::Put(item))
        } else {
            self.made_batch(name, kind, Op::Put(item))
        }
    }

    // A write to a question alone.
    fn lone_batch(&self, name: &Name, op: Op) -> Mem<Batch<'q>>
        requires over { HasPlans self.now }
        ensures { IfOk result (λ batch. batch ≡ seen (asked state self.now) write_beside_of [] name.now op ∷ []) }
    {
        let mut batch = Batch::new(self.alloc);
        batch.push(self.write_beside(&KindsLeft::none(self.alloc), name, op)?)?;
        Ok(batch)
    }

    // The write that makes the template of a question, and one to the question.
    fn made_batch(&self, name: &Name, kind: Kind, op: Op) -> Mem<Batch<'q>>
        requires over { HasPlans self.now }
        ensures { IfOk result (λ batch. batch ≡ seen (asked state self.now) template_made_of name.now kind
            ∷ seen (asked state self.now) write_beside_of (seen (asked state self.now) template_made_of name.now kind ∷ []) name.now op ∷ []) }
    {
        let first = self.template_made(name, kind)?;
        let second = self.write_after(&first, name, op)?;
        let mut batch = Batch::with_capacity(self.alloc, 2)?;
        batch.push(first)?;
        batch.push(second)?;
        Ok(batch)
    }

    // The write that makes the template of a question.
    fn template_made(&self, name: &Name, kind: Kind) -> Mem<Write<'q>>
        requires over { HasPlans self.now }
        ensures { IfOk result (λ w. w ≡ seen (asked state self.now) template_made_of name.now kind) }
    {
        let item = made_template(self.alloc, kind, name)?;
        Ok(self.own_template_write(name.copy()?, Some(kind), Op::Put(item)))
    }

    // A write to a template of a known kind, which is done for the question of its name.
    fn own_template_write(&self, name: Name, kind: Option<Kind>, op: Op) -> Write<'q>
        ensures { result ≡ record { plan = self.now.context.templates; name = name; kind = kind; op = op; reported_for = name ∷ [] } }
    {
        Write {
            plan: self.context.templates,
            name,
            kind,
            op,
            reported_for: ReportedFor::Itself,
        }
    }
}

// The item of a question with its answer.
fn answered(
    alloc: Global,
    old: Option<&Item>,
    owner: &Name,
    name: &Name,
    value: &[u8],
    unseen: bool,
) -> Mem<Item>
    ensures { IfOk result (λ item. item ≡ answered_of (option_copied old.entry) owner.now name.now value.now unseen) }
{
    match old {
        Some(item) => answered_again(alloc, item, owner, value, unseen),
        None => answered_new(alloc, owner, name, value, unseen),
    }
}

// The item of a question that is there, with its answer.
fn answered_again(alloc: Global, old: &Item, owner: &Name, value: &[u8], unseen: bool) -> Mem<Item>
    ensures { IfOk result (λ item. item ≡ answered_of (Some old.now) owner.now [] value.now unseen) }
{
    let mut item = old.copy()?;
    item.apply(&Op::SetField(FieldKey::known(alloc, b"value")?, settle(alloc, value)?))?;
    item.apply(&Op::AddOwner(owner.copy()?))?;
    if !unseen {
        item.apply(&Op::SetFlag(seen_flag(alloc)?, true))?;
    }
    Ok(item)
}

// The item of a new question of the template of its name, with its answer. Its parts are put in the order in which they stand.
fn answered_new(alloc: Global, owner: &Name, name: &Name, value: &[u8], unseen: bool) -> Mem<Item>
    ensures { IfOk result (λ item. item ≡ answered_of None owner.now name.now value.now unseen) }
{
    let mut builder = bare_question(alloc, name)?;
    let _ = builder.put_written_field(b"value", value)?;
    builder.put_owner(owner.bytes())?;
    put_seen(&mut builder, unseen)?;
    builder.take()
}

// Sets the flag `seen`, unless that isn't wanted.
fn put_seen(builder: &mut ItemBuilder, unseen: bool) -> Mem<()>
    ensures { OnOk result (builder.new ≡ record builder.old {
      flags = if unseen then builder.old.flags else map.insert builder.old.flags (codes "seen") tt;
    }) }
{
    if unseen {
        return Ok(());
    }
    builder.put_flag(b"seen")
}

/// The name of the flag `seen`.
pub fn seen_flag(alloc: Global) -> Mem<FlagName>
    ensures { IfOk result (λ flag. flag ≡ codes "seen") }
{
    match FlagName::read(alloc, b"seen") {
        Ok(flag) => Ok(flag),
        Err(_) => Err(OutOfMemory),
    }
}

// What stands in a new question of the template of its name.
fn bare_question(alloc: Global, name: &Name) -> Mem<ItemBuilder>
    ensures { IfOk result (λ builder. builder ≡ question_then_of None name.now) }
{
    let mut builder = ItemBuilder::new(alloc);
    let _ = builder.put_written_field(b"template", name.bytes())?;
    Ok(builder)
}

// The item of a template that is made for a question: its type, and the question as its owner.
fn made_template(alloc: Global, kind: Kind, name: &Name) -> Mem<Item>
    ensures { IfOk result (λ item. item ≡ made_template_of kind name.now) }
{
    let mut builder = ItemBuilder::new(alloc);
    let _ = builder.put_new_field(b"type", kind.word())?;
    builder.put_owner(name.bytes())?;
    builder.take()
}
