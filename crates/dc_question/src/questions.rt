// Questions over a store.
ghost use Rattle.std.specs.Prelude.{◌≡◌, Err, length, map as each, option_map, Some, IfOk};
ghost use Rattle.std.specs.Option.{option_copied};
ghost use Rattle.dc_question.specs.Asked.{asked, HasPlans, seen};
ghost use Rattle.dc_question.specs.declared.errors.QuestionError.TheVariants.{NoQuestion};
ghost use Rattle.dc_conf.specs.Trees.{shape};
ghost use Rattle.dc_conf.specs.Plans.{IsOver};
ghost use Rattle.dc_item.specs.Owners.{owners_left};
ghost use Rattle.dc_store.specs.Plans.{look};
ghost use Rattle.dc_question.specs.Readings.{value_of as value_by};
ghost use Rattle.dc_question.specs.Questions.{question as question_of, template as template_of, exists as exists_of, kind as kind_of, owners as owners_of, can_change as can_change_of, value as value_of, field as field_of, expanded_field, choices as choices_of, flag as flag_of, read, Answers};

use crate::choices::{ChoicePair, choice_pair};
use crate::context::QuestionContext;
use crate::errors::QuestionError;
use crate::fields::{field, localised};
use crate::values::{default_value, kind};
use dc_conf::plans::Plan;
use dc_item::{Item, Owners};
use dc_layer::Layer;
use dc_store::Store;
use dc_template::Kind;
use dc_text::{FieldKey, FlagName, Mem, Name, Text};
use std::alloc::Global;

/// Questions and their templates, which stand in two plans of a store (debconf-devel(7)). Each plan speaks of the store's layers.
#[derive(Drop)]
pub struct Questions<'q> {
    pub alloc: Global,
    pub store: &'q mut Store,
    /// The plans of questions and of templates, and the user's language.
    pub context: QuestionContext<'q>,
}

impl<'q> Questions<'q> {
    /// The questions of one plan of the store and the templates of another, read in the user's language.
    pub fn new(
        alloc: Global,
        store: &'q mut Store,
        config: &'q Plan,
        templates: &'q Plan,
        lang: &'q Text,
    ) -> Questions<'q>
        requires config { IsOver (shape config.now) (length store.old.layers.items) }
        requires templates { IsOver (shape templates.now) (length store.old.layers.items) }
        ensures store { result.store.now ≡ store.old }
        ensures held { result.store.ghost_name ≡ store.entry.ghost_name }
        ensures context { result.context ≡ record { config = shape config.now; templates = shape templates.now; lang = lang.now } }
    {
        Questions {
            alloc,
            store,
            context: QuestionContext {
                config,
                templates,
                lang,
            },
        }
    }

    /// Whether there is such a question.
    pub fn exists(&self, name: &Name) -> bool
        requires { HasPlans self.now }
        ensures { result ≡ seen (asked state self.now) exists_of name.now }
    {
        self.question(name).is_some()
    }

    /// The kind of the question: `None` without a template, or where the template's type is no kind's word.
    pub fn kind(&self, name: &Name) -> Option<Kind>
        requires { HasPlans self.now }
        ensures { result ≡ seen (asked state self.now) kind_of name.now }
    {
        kind(self.template(self.question(name)?))
    }

    /// The owners of the question, in byte order: `None` where there is no such question. To go over them takes no memory.
    pub fn owners(&self, name: &Name) -> Option<Owners<'_>>
        requires { HasPlans self.now }
        ensures { option_map owners_left result ≡ seen (asked state self.now) owners_of name.now }
    {
        Some(self.question(name)?.owners())
    }

    /// Whether a change of the question is taken: the topmost layer that has it is writable, or one above takes a question of its name
    /// and kind. It is false where there is no such question.
    pub fn can_change(&self, name: &Name) -> Mem<bool>
        requires { HasPlans self.now }
        ensures { IfOk result (λ is. is ≡ seen (asked state self.now) can_change_of name.now) }
    {
        self.store
            .can_change(self.context.config, name, self.kind(name))
    }

    /// The value of the question: its own, else its template's default in the user's language, else the empty text.
    pub fn value(&self, name: &Name) -> Result<Text, QuestionError>
        requires { HasPlans self.now }
        ensures { Answers result (seen (asked state self.now) value_of name.now) }
    {
        match self.question(name) {
            None => Err(QuestionError::NoQuestion { name: name.copy()? }),
            Some(item) => Ok(self.value_of(item)?),
        }
    }

    // The value of a question that is there. Its template is looked for only where it has none of its own.
    fn value_of(&self, item: &Item) -> Mem<Text>
        requires { HasPlans self.now }
        ensures { IfOk result (λ value. value ≡ value_by self.now.context.lang item.now (seen (asked state self.now) template_of item.now)) }
    {
        match item.field(b"value") {
            Some(value) => Text::from_bytes(self.alloc, value),
            None => default_value(self.alloc, self.context.lang.bytes(), self.template(item)),
        }
    }

    /// A field of the question's template in the user's language. `NoField` comes exactly where the template has it in no
    /// language that is tried.
    pub fn field(&self, name: &Name, key: &FieldKey) -> Result<Text, QuestionError>
        requires { HasPlans self.now }
        ensures { Answers result (seen (asked state self.now) field_of name.now key.now) }
    {
        let Some(item) = self.question(name) else {
            return Err(QuestionError::NoQuestion { name: name.copy()? });
        };
        let Some(template) = self.template(item) else {
            return Err(QuestionError::NoTemplate { name: name.copy()? });
        };
        match localised(self.alloc, self.context.lang.bytes(), template, key)? {
            None => Err(QuestionError::NoField),
            Some(text) => Ok(Text::from_bytes(self.alloc, text)?),
        }
    }

    /// The same with the question's variables put in.
    pub fn expanded(&self, name: &Name, key: &FieldKey) -> Result<Text, QuestionError>
        requires { HasPlans self.now }
        ensures { Answers result (seen (asked state self.now) expanded_field name.now key.now) }
    {
        let Some(item) = self.question(name) else {
            return Err(QuestionError::NoQuestion { name: name.copy()? });
        };
        let Some(template) = self.template(item) else {
            return Err(QuestionError::NoTemplate { name: name.copy()? });
        };
        match field(self.alloc, self.context.lang.bytes(), item, template, key)? {
            None => Err(QuestionError::NoField),
            Some(text) => Ok(text),
        }
    }

    /// The choices of the question, each with its label.
    pub fn choices(&self, name: &Name) -> Result<ChoicePair, QuestionError>
        requires { HasPlans self.now }
        ensures { Answers result (seen (asked state self.now) choices_of name.now) }
    {
        let Some(item) = self.question(name) else {
            return Err(QuestionError::NoQuestion { name: name.copy()? });
        };
        let Some(template) = self.template(item) else {
            return Err(QuestionError::NoTemplate { name: name.copy()? });
        };
        Ok(choice_pair(self.alloc, self.context.lang.bytes(), item, template)?)
    }

    /// Whether a flag of the question is true.
    pub fn flag(&self, name: &Name, flag: &FlagName) -> Result<bool, QuestionError>
        requires { HasPlans self.now }
        ensures { Answers result (seen (asked state self.now) flag_of name.now flag.now) }
    {
        match self.question(name) {
            None => Err(QuestionError::NoQuestion { name: name.copy()? }),
            Some(item) => Ok(item.flag(flag.bytes())),
        }
    }

    pub(crate) fn question(&self, name: &Name) -> Option<&Item>
        requires { HasPlans self.now }
        ensures { option_copied result ≡ seen (asked state self.now) question_of name.now }
    {
        self.store.look(self.context.config, name)
    }

    pub(crate) fn template(&self, item: &Item) -> Option<&Item>
        requires { HasPlans self.now }
        ensures { option_copied result ≡ seen (asked state self.now) template_of item.now }
    {
        let name = item.field(b"template")?;
        self.named_template(name)
    }

    // The template of this name.
    pub(crate) fn named_template(&self, name: &[u8]) -> Option<&Item>
        requires { HasPlans self.now }
        ensures { option_copied result ≡ look (asked state self.now).store.layers self.now.context.templates name.now }
    {
        self.store.seek(self.context.templates, name)
    }
}
