// Owners that leave questions.
ghost use Rattle.std.specs.Prelude.{◌≡◌, ◌∷◌, ◌++◌, [], IfOk, OnOk, true, option_map, map as each};
ghost use Rattle.std.specs.List.{cons_option};
ghost use Rattle.dc_conf.specs.Plans.{are_disjoint};
ghost use Rattle.dc_text.specs.Maps.{AreDistinct};
ghost use Rattle.dc_item.specs.declared.op.Op.TheVariants.{DropOwners as DropOwnersOf};
ghost use Rattle.dc_store.specs.Plans.{has_below as has_below_of, owned as owned_of};
ghost use Rattle.dc_store.specs.Batches.{names_of};
ghost use Rattle.dc_question.specs.Asked.{asked, HasPlans, seen, Leaves, SameButAll};
ghost use Rattle.dc_question.specs.Changes.{batch_for};
ghost use Rattle.dc_question.specs.KindsLeft.{write_by};
ghost use Rattle.dc_question.specs.Losses.{pairs_lost as pairs_lost_of, losses_of};
ghost use Rattle.dc_question.specs.Ownership.{goes_with as goes_with_of, bound_to as bound_to_of, loser_of as loser_of_of, leave_batch as leave_row_of, template_write as template_write_of};

use crate::beside::{goes, only};
use crate::errors::QuestionError;
use crate::grouping::grouped;
use crate::kinds_left::KindsLeft;
use crate::questions::Questions;
use dc_item::Op;
use dc_layer::Layer;
use dc_store::{Batch, Write};
use dc_text::{List, Mem, Name};

impl<'q> Questions<'q> {
    // Takes the owner away from the questions, and those that go with it from their templates.
    pub(crate) fn leave(&mut self, owner: &Name, names: &[Name]) -> Result<(), QuestionError>
        requires names { AreDistinct names.now }
        requires over { HasPlans self.old }
        requires apart { are_disjoint self.old.context.config self.old.context.templates ≡ true }
        ensures does { Leaves result
            (λ store at. batch_for store names.now (leave_row_of store.layers at owner.now names.now))
            (asked state self.old) (asked state self.new) }
        ensures frame { SameButAll (names_of (seen (asked state self.old) leave_row_of owner.now names.now)) (asked state self.old) (asked state self.new) }
    {
        let mut batch = self.leave_batch(owner, names)?;
        self.do_batch(names, &mut batch)
    }

    // The writes by which the owner leaves the questions, and then those by which templates lose questions.
    fn leave_batch(&self, owner: &Name, names: &[Name]) -> Mem<Batch<'q>>
        requires over { HasPlans self.now }
        ensures { IfOk result (λ batch. batch ≡ seen (asked state self.now) leave_row_of owner.now names.now) }
    {
        let pairs = self.pairs_lost(owner, names)?;
        let groups = grouped(self.alloc, pairs.as_slice())?;
        let losses = self.losses(groups.as_slice())?;
        let kinds = self.kinds_left(losses.as_slice())?;
        let mut batch = self.leaves(&kinds, owner, names)?;
        self.add_losses(&mut batch, groups.as_slice())?;
        Ok(batch)
    }

    // The writes by which templates lose questions.
    fn losses(&self, groups: &[(Name, List<Name>)]) -> Mem<Batch<'q>>
        requires over { HasPlans self.now }
        ensures { IfOk result (λ batch. batch ≡ seen (asked state self.now) losses_of groups.now) }
    {
        let mut batch = Batch::new(self.alloc);
        self.add_losses(&mut batch, groups)?;
        Ok(batch)
    }

    // Each question that a template loses with the owner, behind the name of the template.
    fn pairs_lost(&self, owner: &Name, names: &[Name]) -> Mem<List<(Name, Name)>>
        requires over { HasPlans self.now }
        ensures { IfOk result (λ pairs. pairs ≡ seen (asked state self.now) pairs_lost_of owner.now names.now) }
    {
        let mut pairs = List::new(self.alloc);
        for name in names {
            self.add_lost(&mut pairs, owner, name)?;
        }
        Ok(pairs)
    }

    // Adds the question, where a template loses it.
    fn add_lost(&self, pairs: &mut List<(Name, Name)>, owner: &Name, name: &Name) -> Mem<()>
        requires over { HasPlans self.now }
        ensures { OnOk result (pairs.new ≡ pairs.old
            ++ cons_option (option_map (λ t. (t, name.now)) (seen (asked state self.now) loser_of_of owner.now name.now)) []) }
    {
        match self.loser_of(owner, name)? {
            None => Ok(()),
            Some(template) => pairs.push((template, name.copy()?)),
        }
    }

    // The template that loses the question with the owner.
    fn loser_of(&self, owner: &Name, name: &Name) -> Mem<Option<Name>>
        requires over { HasPlans self.now }
        ensures { IfOk result (λ found. found ≡ seen (asked state self.now) loser_of_of owner.now name.now) }
    {
        if self.goes_with(owner, name)? {
            self.bound_to(name)
        } else {
            Ok(None)
        }
    }

    // Whether the question goes with the owner.
    fn goes_with(&self, owner: &Name, name: &Name) -> Mem<bool>
        requires over { HasPlans self.now }
        ensures { IfOk result (λ is. is ≡ seen (asked state self.now) goes_with_of owner.now name.now) }
    {
        let op = Op::DropOwners(only(self.alloc, owner)?);
        let goes = goes(&op, self.question(name))?;
        Ok(goes && !self.has_below(name))
    }

    /// The questions that have the owner.
    pub fn owned(&self, owner: &Name) -> Mem<List<Name>>
        requires over { HasPlans self.now }
        ensures { IfOk result (λ names. names ≡ owned_of (asked state self.now).store.layers self.now.context.config owner.now) }
    {
        self.store.owned(self.context.config, owner)
    }

    // Whether a layer below the holder has the question too.
    fn has_below(&self, name: &Name) -> bool
        requires over { HasPlans self.now }
        ensures { result ≡ has_below_of (asked state self.now).store.layers self.now.context.config name.now }
    {
        self.store.has_below(self.context.config, name)
    }

    // The name of the template that the question is bound to, where it is there.
    fn bound_to(&self, name: &Name) -> Mem<Option<Name>>
        requires over { HasPlans self.now }
        ensures { IfOk result (λ found. found ≡ seen (asked state self.now) bound_to_of name.now) }
    {
        let Some(item) = self.question(name) else {
            return Ok(None);
        };
        let Some(template) = item.field(b"template") else {
            return Ok(None);
        };
        self.template_named(template)
    }

    // The writes by which the owner leaves the questions.
    fn leaves(&self, kinds: &KindsLeft<'_>, owner: &Name, names: &[Name]) -> Mem<Batch<'q>>
        requires over { HasPlans self.now }
        ensures { IfOk result (λ batch. batch ≡ each (λ name. seen (asked state self.now) write_by kinds.now name (DropOwnersOf (owner.now ∷ []))) names.now) }
    {
        let mut batch = Batch::new(self.alloc);
        for name in names {
            let op = Op::DropOwners(only(self.alloc, owner)?);
            batch.push(self.write_beside(kinds, name, op)?)?;
        }
        Ok(batch)
    }

    // Adds the writes by which templates lose questions.
    fn add_losses(&self, batch: &mut Batch<'q>, groups: &[(Name, List<Name>)]) -> Mem<()>
        requires over { HasPlans self.now }
        ensures { OnOk result (batch.new ≡ batch.old ++ seen (asked state self.now) losses_of groups.now) }
    {
        for group in groups {
            batch.push(self.loss(&group.0, &group.1)?)?;
        }
        Ok(())
    }

    // The write by which a template loses questions.
    fn loss(&self, template: &Name, questions: &List<Name>) -> Mem<Write<'q>>
        requires over { HasPlans self.now }
        ensures { IfOk result (λ w. w ≡ seen (asked state self.now) template_write_of template.now (DropOwnersOf questions.now) questions.now) }
    {
        let op = Op::DropOwners(questions.copy()?);
        self.template_write(template.copy()?, op, questions.copy()?)
    }
}
