// Commands of the session: its version and capabilities, titles, and the questions that are asked.
ghost use Rattle.std.specs.Prelude.{◌≡◌, ℕ, List, [], ◌∷◌, ◌++◌, Result, OnOk, OnErr, IfOk, map as each, filter, fold, is_some, option_map, if◌then◌else◌, codes};
ghost use Rattle.std.specs.List.{filter_map, cons_option};
ghost use Rattle.std.specs.Result.{result_unwrap_or};
ghost use Rattle.dc_proto.specs.Replies.{reply};
ghost use Rattle.dc_proto.specs.declared.command.Command.TheVariants as command;
ghost use Rattle.dc_question.specs.Questions.{Answers, kind as kind_of, choices as choices_of, expanded_field, value as value_of};
ghost use Rattle.dc_question.specs.declared.errors.QuestionError.{QuestionError as QuestionErrorOf};
ghost use Rattle.dc_question.specs.Changes.{values_set};
ghost use Rattle.dc_session.specs.Answers.{reply_asking, titled, gone, capabilities as capabilities_of, input_reply, is_supported as is_supported_of};
ghost use Rattle.dc_session.specs.Asking.{description as description_of, is_to_be_shown as is_to_be_shown_of, prepared_if, choice_for as choice_for_of, choices_for as choices_for_of, shown as shown_of, with_name, is_among, or_empty as or_empty_of};
ghost use Rattle.dc_session.specs.Inside.{Comes, ComesAsking};
ghost use Rattle.dc_session.specs.Machine.{Does, DoesShowing};
ghost use Rattle.dc_session.specs.declared.stepped.Stepped.TheVariants.{Replied};
ghost use Rattle.dc_session.specs.SessionState.{borrows_of};

use crate::name_set::add_all;
use crate::replies::{missing, named, refused, says};
use crate::session::Session;
use crate::stepped::{StepError, Stepped, lifted};
use dc_frontend::{Frontend, Noninteractive, Shown, is_shown};
use dc_outside::{Files, Link};
use dc_proto::Priority;
use dc_question::{ChoicePair, QuestionError};
use dc_serve::LineMachine;
use dc_template::Kind;
use dc_text::{FieldKey, FlagName, List, Mem, Name, OutOfMemory, Text};
use std::alloc::Global;

impl<'s, 'f, 't, 'h, 'e, F: Files, T: Link, E: Link> Session<'s, 'f, 't, 'h, 'e, F, T, E> {
    pub(crate) fn version(&self, version: &Option<Text>) -> Mem<Stepped>
        ensures { Does (command.Version version.now) (⟦<Self as LineMachine>⟧.state self.now) (⟦<Self as LineMachine>⟧.state self.now) result }
    {
        if is_supported(version) {
            says(self.alloc, 0, b"2.0")
        } else {
            says(self.alloc, 30, b"version not supported")
        }
    }

    pub(crate) fn capb(&mut self, words: &List<Text>) -> Mem<Stepped>
        ensures does { Does (command.Capb words.now) (⟦<Self as LineMachine>⟧.state self.old) (⟦<Self as LineMachine>⟧.state self.new) result }
        ensures borrows { borrows_of self.new ≡ borrows_of self.old }
    {
        let told = says(self.alloc, 0, capabilities(self.policy.frontend))?;
        self.asking.escape = has_word(words.as_slice(), b"escape");
        self.asking.backup = has_word(words.as_slice(), b"backup");
        Ok(told)
    }

    pub(crate) fn set_title(&mut self, word: &Text) -> Mem<Stepped>
        ensures does { Does (command.SetTitle word.now) (⟦<Self as LineMachine>⟧.state self.old) (⟦<Self as LineMachine>⟧.state self.new) result }
        ensures borrows { borrows_of self.new ≡ borrows_of self.old }
    {
        let Some(name) = named(self.alloc, word)? else {
            return missing(self.alloc, word.bytes());
        };
        match self.description(&name) {
            Ok(text) => self.retitle(text),
            Err(error) => refused(self.alloc, b"", error),
        }
    }

    pub(crate) fn title(&mut self, text: &Text) -> Mem<Stepped>
        ensures does { Does (command.Title text.now) (⟦<Self as LineMachine>⟧.state self.old) (⟦<Self as LineMachine>⟧.state self.new) result }
        ensures borrows { borrows_of self.new ≡ borrows_of self.old }
    {
        let text = text.copy()?;
        self.retitle(text)
    }

    #[tactic(auto, using(dc_store::proofs::RowLemmas::same_all_refl))]
    // The text is the title.
    fn retitle(&mut self, text: Text) -> Mem<Stepped>
        ensures comes { Comes (reply_asking (⟦<Self as LineMachine>⟧.state self.old) (reply 0 [])
            (titled (⟦<Self as LineMachine>⟧.state self.old).asking text)) [] (⟦<Self as LineMachine>⟧.state self.old)
            (⟦<Self as LineMachine>⟧.state self.new) result }
        ensures borrows { borrows_of self.new ≡ borrows_of self.old }
    {
        let told = says(self.alloc, 0, b"")?;
        self.asking.title = text;
        Ok(told)
    }

    // The expanded description of the question, empty where it has none.
    pub(crate) fn description(&self, name: &Name) -> Result<Text, QuestionError>
        ensures { Answers result (description_of (⟦<Self as LineMachine>⟧.state self.now).store.layers (⟦<Self as LineMachine>⟧.state self.now).at name.now) }
    {
        let key = FieldKey::known(self.alloc, b"description")?;
        or_empty(self.alloc, self.desk.questions.expanded(name, &key))
    }

    pub(crate) fn input(&mut self, priority: Priority, word: &Text) -> Mem<Stepped>
        ensures does { Does (command.Input priority word.now) (⟦<Self as LineMachine>⟧.state self.old) (⟦<Self as LineMachine>⟧.state self.new) result }
        ensures borrows { borrows_of self.new ≡ borrows_of self.old }
    {
        let Some(name) = named(self.alloc, word)? else {
            return missing(self.alloc, word.bytes());
        };
        match self.is_to_be_shown(priority, &name) {
            Ok(shown) => self.prepare_if(shown, &name),
            Err(error) => refused(self.alloc, b"", error),
        }
    }

    // Whether the question is to be shown, which is asked with this priority.
    fn is_to_be_shown(&self, priority: Priority, name: &Name) -> Result<bool, QuestionError>
        ensures { Answers result (is_to_be_shown_of (⟦<Self as LineMachine>⟧.state self.now) priority name.now) }
    {
        let flag = seen_flag(self.alloc)?;
        let seen = self.desk.questions.flag(name, &flag)?;
        match self.desk.questions.kind(name) {
            None => Err(QuestionError::NoTemplate { name: name.copy()? }),
            Some(kind) => Ok(is_shown(self.policy.threshold, priority, kind, seen)),
        }
    }

    #[tactic(auto, using(dc_store::proofs::RowLemmas::same_all_refl))]
    // Prepares the question where it is to be shown.
    fn prepare_if(&mut self, shown: bool, name: &Name) -> Mem<Stepped>
        ensures comes { Comes (reply_asking (⟦<Self as LineMachine>⟧.state self.old)
            (input_reply (⟦<Self as LineMachine>⟧.state self.old).policy.frontend shown)
            (prepared_if shown (⟦<Self as LineMachine>⟧.state self.old).asking name.now)) [] (⟦<Self as LineMachine>⟧.state self.old)
            (⟦<Self as LineMachine>⟧.state self.new) result }
        ensures borrows { borrows_of self.new ≡ borrows_of self.old }
    {
        let told = prepared_told(self.alloc, self.policy.frontend, shown)?;
        if shown {
            self.asking.prepared.add(name)?;
        }
        Ok(told)
    }

    pub(crate) fn go(&mut self) -> Result<Stepped, StepError>
        ensures does { DoesShowing command.Go (⟦<Self as LineMachine>⟧.state self.old) (⟦<Self as LineMachine>⟧.state self.new) result }
        ensures borrows { borrows_of self.new ≡ borrows_of self.old }
    {
        match self.policy.frontend {
            Frontend::Noninteractive => lifted(self.skip_prepared()),
            Frontend::Teletype | Frontend::Passthrough => self.ask_prepared(),
        }
    }

    #[tactic(auto, using(dc_store::proofs::RowLemmas::same_all_refl))]
    // Sets the prepared questions to a choice that have to have one, where nobody is asked.
    fn skip_prepared(&mut self) -> Mem<Stepped>
        ensures comes { ComesAsking
            (gone (⟦<Self as LineMachine>⟧.state self.old)
            (values_set (⟦<Self as LineMachine>⟧.state self.old).store (⟦<Self as LineMachine>⟧.state self.old).at
            (choices_for_of (⟦<Self as LineMachine>⟧.state self.old)))) (each (λ a. a.0) (choices_for_of (⟦<Self as LineMachine>⟧.state self.old)))
            (⟦<Self as LineMachine>⟧.state self.old) (⟦<Self as LineMachine>⟧.state self.new) result }
        ensures borrows { borrows_of self.new ≡ borrows_of self.old }
    {
        let prepared = self.asking.prepared.names()?;
        let askable = self.askable(prepared.as_slice())?;
        let choices = self.choices_for(prepared.as_slice())?;
        let told = says(self.alloc, 0, b"ok")?;
        let desk = &mut self.desk;
        match desk.questions.set_all(choices.as_slice()) {
            Ok(()) => {
                self.skip(askable.as_slice())?;
                Ok(told)
            }
            Err(error) => refused(self.alloc, b"", error),
        }
    }

    // Those of the questions that are there and have a kind.
    fn askable(&self, names: &[Name]) -> Mem<List<Name>>
        ensures { IfOk result (λ askable. askable ≡ filter
            (λ name. is_some (kind_of (⟦<Self as LineMachine>⟧.state self.now).store.layers (⟦<Self as LineMachine>⟧.state self.now).at name)) names.now) }
    {
        let mut askable = List::new(self.alloc);
        for name in names {
            self.add_askable(&mut askable, name)?;
        }
        Ok(askable)
    }

    // Adds the question, where it is there and has a kind.
    fn add_askable(&self, askable: &mut List<Name>, name: &Name) -> Mem<()>
        ensures { OnOk result (askable.new ≡ askable.old ++ filter
            (λ n. is_some (kind_of (⟦<Self as LineMachine>⟧.state self.now).store.layers (⟦<Self as LineMachine>⟧.state self.now).at n)) (name.now ∷ [])) }
    {
        if self.desk.questions.kind(name).is_none() {
            return Ok(());
        }
        askable.push(name.copy()?)
    }

    // The choices that the questions are set to without a user, each behind its question.
    fn choices_for(&self, names: &[Name]) -> Mem<List<(Name, Text)>>
        ensures { IfOk result (λ choices. choices ≡ filter_map
            (choice_for_of (⟦<Self as LineMachine>⟧.state self.now).store.layers (⟦<Self as LineMachine>⟧.state self.now).at) names.now) }
    {
        let mut choices = List::new(self.alloc);
        for name in names {
            self.add_choice(&mut choices, name)?;
        }
        Ok(choices)
    }

    // Adds the choice that the question is set to without a user, if it is set to one.
    fn add_choice(&self, choices: &mut List<(Name, Text)>, name: &Name) -> Mem<()>
        ensures { OnOk result (choices.new ≡ choices.old ++ cons_option
            (choice_for_of (⟦<Self as LineMachine>⟧.state self.now).store.layers (⟦<Self as LineMachine>⟧.state self.now).at name.now) []) }
    {
        match self.choice_for(name)? {
            None => Ok(()),
            Some(choice) => choices.push((name.copy()?, choice)),
        }
    }

    // The choice that the question is set to without a user, if it is set to one.
    fn choice_for(&self, name: &Name) -> Mem<Option<Text>>
        ensures { IfOk result (λ choice. option_map (λ c. (name.now, c)) choice ≡ choice_for_of (⟦<Self as LineMachine>⟧.state self.now).store.layers
            (⟦<Self as LineMachine>⟧.state self.now).at name.now) }
    {
        let Some(kind) = self.desk.questions.kind(name) else {
            return Ok(None);
        };
        let shown = self.shown(name, kind)?;
        match Noninteractive::settle(&shown) {
            None => Ok(None),
            Some(choice) => Ok(Some(choice.copy()?)),
        }
    }

    // The question, of this kind, as it is shown.
    pub(crate) fn shown(&self, name: &Name, kind: Kind) -> Mem<Shown>
        ensures { IfOk result (λ shown. shown ≡ shown_of (⟦<Self as LineMachine>⟧.state self.now).store.layers
            (⟦<Self as LineMachine>⟧.state self.now).at name.now kind) }
    {
        let ChoicePair { plain, labels } = self.choices(name)?;
        let description = self.text(name, &FieldKey::known(self.alloc, b"description")?)?;
        let extended = self.text(name, &FieldKey::known(self.alloc, b"extended_description")?)?;
        Ok(Shown {
            name: name.copy()?,
            kind,
            description,
            extended,
            choices: plain,
            labels,
            value: self.value(name)?,
        })
    }

    // The value of the question.
    fn value(&self, name: &Name) -> Mem<Text>
        ensures { IfOk result (λ text. text ≡ result_unwrap_or
            (value_of (⟦<Self as LineMachine>⟧.state self.now).store.layers (⟦<Self as LineMachine>⟧.state self.now).at name.now) []) }
    {
        text_or_empty(self.alloc, self.desk.questions.value(name))
    }

    // The choices of the question, none where it has no template.
    fn choices(&self, name: &Name) -> Mem<ChoicePair>
        ensures { IfOk result (λ pair. pair ≡ result_unwrap_or
            (choices_of (⟦<Self as LineMachine>⟧.state self.now).store.layers (⟦<Self as LineMachine>⟧.state self.now).at name.now)
            (record { plain = []; labels = [] })) }
    {
        match self.desk.questions.choices(name) {
            Ok(pair) => Ok(pair),
            Err(QuestionError::OutOfMemory) => Err(OutOfMemory),
            Err(_) => Ok(ChoicePair {
                plain: List::new(self.alloc),
                labels: List::new(self.alloc),
            }),
        }
    }

    // An expanded field of the question, empty where its template has none.
    fn text(&self, name: &Name, key: &FieldKey) -> Mem<Text>
        ensures { IfOk result (λ text. text ≡ result_unwrap_or
            (expanded_field (⟦<Self as LineMachine>⟧.state self.now).store.layers (⟦<Self as LineMachine>⟧.state self.now).at name.now key.now) []) }
    {
        text_or_empty(self.alloc, self.desk.questions.expanded(name, key))
    }

    // Nothing is prepared any more, and the questions that were skipped are asked, where that is the manner.
    fn skip(&mut self, names: &[Name]) -> Mem<()>
        ensures ok { OnOk result ((⟦<Self as LineMachine>⟧.state self.new) ≡ record
            (⟦<Self as LineMachine>⟧.state self.old) {
              asking = record
                  (⟦<Self as LineMachine>⟧.state self.old).asking {
                    prepared = [];
                    asked = if
                        (⟦<Self as LineMachine>⟧.state self.old).policy.nonint_seen then fold with_name
                        (⟦<Self as LineMachine>⟧.state self.old).asking.asked names.now else (⟦<Self as LineMachine>⟧.state self.old).asking.asked;
                  };
            }) }
        ensures err { OnErr result
            ((⟦<Self as LineMachine>⟧.state self.new) ≡ record
            (⟦<Self as LineMachine>⟧.state self.old) { asking = (⟦<Self as LineMachine>⟧.state self.new).asking }) }
        ensures borrows { borrows_of self.new ≡ borrows_of self.old }
    {
        if self.policy.nonint_seen {
            add_all(&mut self.asking.asked, names)?;
        }
        self.asking.prepared.clear();
        Ok(())
    }

    pub(crate) fn clear(&mut self) -> Mem<Stepped>
        ensures does { Does command.Clear (⟦<Self as LineMachine>⟧.state self.old) (⟦<Self as LineMachine>⟧.state self.new) result }
        ensures borrows { borrows_of self.new ≡ borrows_of self.old }
    {
        let told = says(self.alloc, 0, b"")?;
        let prepared = &mut self.asking.prepared;
        prepared.clear();
        Ok(told)
    }
}

// What is told that can be done.
fn capabilities(frontend: Frontend) -> &'static [u8]
    ensures { result.now ≡ capabilities_of frontend }
{
    match frontend {
        Frontend::Noninteractive => b"multiselect escape",
        Frontend::Teletype | Frontend::Passthrough => b"multiselect escape backup",
    }
}

// What is replied of a question that is to be shown, or not.
fn prepared_told(alloc: Global, frontend: Frontend, shown: bool) -> Mem<Stepped>
    ensures { IfOk result (λ told. told ≡ Replied (input_reply frontend shown)) }
{
    match frontend {
        Frontend::Teletype | Frontend::Passthrough if shown => says(
            alloc,
            0,
            b"question will be asked",
        ),
        _ => says(alloc, 30, b"question skipped"),
    }
}

// Whether the version is one that is served: 2 or one of those behind `2.`, or none is given.
fn is_supported(version: &Option<Text>) -> bool
    ensures { result ≡ is_supported_of version.now }
{
    match version {
        None => true,
        Some(version) => {
            version.bytes() == b"2".as_slice() || version.bytes().starts_with(b"2.")
        }
    }
}

// Whether the word is among the words.
fn has_word(words: &[Text], word: &[u8]) -> bool
    ensures { result ≡ is_among words.now word.now }
{
    words.iter().any(|other| word == other.bytes())
}

// A text that a question has, and the empty one where its template has none.
fn or_empty(alloc: Global, said: Result<Text, QuestionError>) -> Result<Text, QuestionError>
    ensures { (reading : Result (List ℕ) QuestionErrorOf) → Answers said reading → Answers result (or_empty_of reading) }
{
    match said {
        Ok(text) => Ok(text),
        Err(QuestionError::NoQuestion { name }) => Err(QuestionError::NoQuestion { name }),
        Err(QuestionError::OutOfMemory) => Err(QuestionError::OutOfMemory),
        Err(_) => Ok(Text::new(alloc)),
    }
}

// The text that is read, and the empty one where none is.
fn text_or_empty(alloc: Global, said: Result<Text, QuestionError>) -> Mem<Text>
    ensures { (reading : Result (List ℕ) QuestionErrorOf) → Answers said reading → IfOk result (λ text. text ≡ result_unwrap_or reading []) }
{
    match said {
        Ok(text) => Ok(text),
        Err(QuestionError::OutOfMemory) => Err(OutOfMemory),
        Err(_) => Ok(Text::new(alloc)),
    }
}

/// The flag of a question that was asked.
pub fn seen_flag(alloc: Global) -> Mem<FlagName>
    ensures { IfOk result (λ flag. flag ≡ codes "seen") }
{
    match FlagName::read(alloc, b"seen") {
        Ok(flag) => Ok(flag),
        Err(_) => Err(OutOfMemory),
    }
}
