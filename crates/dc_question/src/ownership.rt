// Questions that get owners and lose them.
ghost use Rattle.std.specs.Prelude.{◌≡◌, ◌∷◌, [], true, map as each};
ghost use Rattle.dc_conf.specs.Plans.{are_disjoint};
ghost use Rattle.dc_text.specs.Maps.{AreDistinct};
ghost use Rattle.dc_store.specs.Plans.{owned};
ghost use Rattle.dc_store.specs.Batches.{names_of};
ghost use Rattle.dc_question.specs.Asked.{asked, HasPlans, seen, Leaves, SameButAll};
ghost use Rattle.dc_question.specs.Ownership.{registered, loaded, unregistered, purged, load_batch, leave_batch, purge_batch};

use crate::beside::only;
use crate::binding::has_other_template;
use crate::errors::QuestionError;
use crate::questions::Questions;
use dc_layer::Layer;
use dc_template::Template;
use dc_text::{List, Name};

impl<'q> Questions<'q> {
    /// Binds the question to the template and to the owner, and makes it where it isn't there. The template gets the question as
    /// an owner. `NoTemplate` comes exactly where there is no such template, else `Twice` exactly where the question is bound to
    /// another, else `CantChange` exactly where the store refuses one of the two writes.
    pub fn register(
        &mut self,
        template: &[u8],
        name: &Name,
        owner: &Name,
    ) -> Result<(), QuestionError>
        requires over { HasPlans self.old }
        requires apart { are_disjoint self.old.context.config self.old.context.templates ≡ true }
        ensures does { Leaves result (λ store at. registered store at template.now name.now owner.now) (asked state self.old) (asked state self.new) }
        ensures frame { SameButAll (template.now ∷ name.now ∷ []) (asked state self.old) (asked state self.new) }
    {
        let Some(template) = self.template_named(template)? else {
            return Err(QuestionError::NoTemplate { name: name.copy()? });
        };
        if has_other_template(&template, self.question(name)) {
            return Err(QuestionError::Twice { name: name.copy()? });
        }
        self.bind(&template, name, owner)
    }

    /// Takes the owner away from the question. With its last owner the question goes, and its template loses it.
    pub fn unregister(&mut self, name: &Name, owner: &Name) -> Result<(), QuestionError>
        requires over { HasPlans self.old }
        requires apart { are_disjoint self.old.context.config self.old.context.templates ≡ true }
        ensures does { Leaves result (λ store at. unregistered store at name.now owner.now) (asked state self.old) (asked state self.new) }
        ensures frame { SameButAll (names_of (seen (asked state self.old) leave_batch owner.now (name.now ∷ [])))
            (asked state self.old) (asked state self.new) }
    {
        if !self.exists(name) {
            return Err(QuestionError::NoQuestion { name: name.copy()? });
        }
        let names = only(self.alloc, name)?;
        self.leave(owner, names.as_slice())
    }

    /// Takes the owner away from all its questions, or from none where a write is refused: `CantChange` names the first question,
    /// in byte order, of which its own is or that of the template that it leaves.
    pub fn purge(&mut self, owner: &Name) -> Result<(), QuestionError>
        requires over { HasPlans self.old }
        requires apart { are_disjoint self.old.context.config self.old.context.templates ≡ true }
        ensures does { Leaves result (λ store at. purged store at owner.now) (asked state self.old) (asked state self.new) }
        ensures frame { SameButAll (names_of (seen (asked state self.old) purge_batch owner.now)) (asked state self.old) (asked state self.new) }
    {
        let names = self.owned(owner)?;
        self.leave(owner, names.as_slice())
    }

    /// Puts the templates of a file, whose names are distinct, and binds the question of each one's name to it and to the owner: all
    /// of them, or none. `Twice` names the first template whose question is bound to another, and else `CantChange` the first of
    /// which a write is refused.
    pub fn load_templates(
        &mut self,
        owner: &Name,
        list: &List<Template>,
    ) -> Result<(), QuestionError>
        requires names { AreDistinct (each (λ t. t.name) list.now) }
        requires over { HasPlans self.old }
        requires apart { are_disjoint self.old.context.config self.old.context.templates ≡ true }
        ensures does { Leaves result (λ store at. loaded store at owner.now list.now) (asked state self.old) (asked state self.new) }
        ensures frame { SameButAll (names_of (seen (asked state self.old) load_batch owner.now list.now)) (asked state self.old) (asked state self.new) }
    {
        let list = list.as_slice();
        if let Some(template) = self.bound_elsewhere(list) {
            return Err(QuestionError::Twice {
                name: template.name().copy()?,
            });
        }
        self.load(owner, list)
    }
}
