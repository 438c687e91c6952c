// GO where a user is asked.
ghost use Rattle.std.specs.Prelude.{◌≡◌, ◌≢◌, ◌++◌, [], IfOk, OnOk, OnErr, map as each, option_map, fold, option_copied};
ghost use Rattle.std.specs.List.{filter_map, cons_option, find};
ghost use Rattle.dc_text.specs.Maps.{AreDistinct};
ghost use Rattle.dc_proto.specs.declared.command.Command.TheVariants as command;
ghost use Rattle.dc_frontend.specs.declared.frontend.Frontend.TheVariants.{Noninteractive};
ghost use Rattle.dc_question.specs.Questions.{kind as kind_of};
ghost use Rattle.dc_session.specs.Answers.{heard_out};
ghost use Rattle.dc_session.specs.Asking.{shown as shown_of, value_given, to_show as to_show_of, first_fixed as first_fixed_of, is_fixed as is_fixed_of, has_value as has_value_of, values_given as values_given_of, with_name};
ghost use Rattle.dc_session.specs.Displays.{dialogue, where_asked};
ghost use Rattle.dc_session.specs.Inside.{Asks, Comes, ComesAsking};
ghost use Rattle.dc_session.specs.Machine.{DoesShowing};
ghost use Rattle.dc_teletype.specs.declared.teletype.Asked.TheVariants.{Answers, Back};
ghost use Rattle.dc_session.specs.SessionState.{borrows_of};

use crate::name_set::NameSet;
use crate::replies::{refused, says, unchangeable};
use crate::session::Session;
use crate::stepped::{StepError, Stepped, lifted};
use dc_frontend::Shown;
use dc_outside::{Files, Link};
use dc_serve::LineMachine;
use dc_teletype::{Answer, Asked};
use dc_template::Kind;
use dc_text::{List, Mem, Name, Text};
use std::alloc::Global;

impl<'s, 'f, 't, 'h, 'e, F: Files, T: Link, E: Link> Session<'s, 'f, 't, 'h, 'e, F, T, E> {
    // Holds a dialogue over the prepared questions, unless the value of one can't be changed, and takes its answers.
    pub(crate) fn ask_prepared(&mut self) -> Result<Stepped, StepError>
        requires asks { (⟦<Self as LineMachine>⟧.state self.old).policy.frontend ≢ Noninteractive }
        ensures does { DoesShowing command.Go (⟦<Self as LineMachine>⟧.state self.old) (⟦<Self as LineMachine>⟧.state self.new) result }
        ensures borrows { borrows_of self.new ≡ borrows_of self.old }
    {
        let prepared = self.asking.prepared.names()?;
        if let Some(name) = self.first_fixed(prepared.as_slice())? {
            return lifted(unchangeable(self.alloc, name.bytes()));
        }
        let questions = self.to_show(prepared.as_slice())?;
        match self.hold(&questions)? {
            Asked::Back => lifted(self.back_up()),
            Asked::Answers(answers) => lifted(self.take_answers(&questions, &answers)),
        }
    }

    // The first of the questions whose value can't be changed.
    fn first_fixed<'n>(&self, names: &'n [Name]) -> Mem<Option<&'n Name>>
        ensures { IfOk result (λ name. option_copied name ≡ find
            (is_fixed_of (⟦<Self as LineMachine>⟧.state self.now).store.layers (⟦<Self as LineMachine>⟧.state self.now).at) names.now) }
    {
        for name in names {
            let is = self.is_fixed(name)?;
            if is {
                return Ok(Some(name));
            }
        }
        Ok(None)
    }

    // Whether the question has a value that can't be changed.
    fn is_fixed(&self, name: &Name) -> Mem<bool>
        ensures { IfOk result (λ is. is ≡ is_fixed_of (⟦<Self as LineMachine>⟧.state self.now).store.layers
            (⟦<Self as LineMachine>⟧.state self.now).at name.now) }
    {
        match self.desk.questions.kind(name) {
            Some(kind) if has_value(kind) => Ok(!self.desk.questions.can_change(name)?),
            _ => Ok(false),
        }
    }

    // Those of the questions that are there and have a kind, as they are shown.
    fn to_show(&self, names: &[Name]) -> Mem<List<Shown>>
        ensures { IfOk result (λ questions. questions ≡ filter_map
            (λ name. option_map (shown_of (⟦<Self as LineMachine>⟧.state self.now).store.layers (⟦<Self as LineMachine>⟧.state self.now).at name)
            (kind_of (⟦<Self as LineMachine>⟧.state self.now).store.layers (⟦<Self as LineMachine>⟧.state self.now).at name)) names.now) }
    {
        let mut questions = List::new(self.alloc);
        for name in names {
            self.add_question(&mut questions, name)?;
        }
        Ok(questions)
    }

    // Adds the question, where it is there and has a kind.
    fn add_question(&self, questions: &mut List<Shown>, name: &Name) -> Mem<()>
        ensures { OnOk result (questions.new ≡ questions.old ++ cons_option
            (option_map (shown_of (⟦<Self as LineMachine>⟧.state self.now).store.layers (⟦<Self as LineMachine>⟧.state self.now).at name.now)
            (kind_of (⟦<Self as LineMachine>⟧.state self.now).store.layers (⟦<Self as LineMachine>⟧.state self.now).at name.now)) []) }
    {
        match self.desk.questions.kind(name) {
            None => Ok(()),
            Some(kind) => questions.push(self.shown(name, kind)?),
        }
    }

    // Holds the dialogue, where there is a question.
    fn hold(&mut self, questions: &List<Shown>) -> Result<Asked, StepError>
        ensures asks { Asks (where_asked (⟦<Self as LineMachine>⟧.state self.old).policy.frontend (dialogue questions.now))
            (⟦<Self as LineMachine>⟧.state self.old) (⟦<Self as LineMachine>⟧.state self.new) result }
        ensures borrows { borrows_of self.new ≡ borrows_of self.old }
    {
        if questions.as_slice().is_empty() {
            return Ok(Asked::Answers(List::new(self.alloc)));
        }
        self.ahead.ask(self.policy.frontend, self.terminal, self.asking, questions)
    }

    #[tactic(auto, using(dc_store::proofs::RowLemmas::same_all_refl))]
    // The user went back, and nothing is prepared any more.
    fn back_up(&mut self) -> Mem<Stepped>
        ensures comes { Comes (heard_out (⟦<Self as LineMachine>⟧.state self.old) Back) [] (⟦<Self as LineMachine>⟧.state self.old)
            (⟦<Self as LineMachine>⟧.state self.new) result }
        ensures borrows { borrows_of self.new ≡ borrows_of self.old }
    {
        let told = says(self.alloc, 30, b"backup")?;
        let prepared = &mut self.asking.prepared;
        prepared.clear();
        Ok(told)
    }

    #[tactic(auto, using(dc_store::proofs::RowLemmas::same_all_refl))]
    // Sets the questions that were shown to the values that they were given.
    fn take_answers(&mut self, questions: &List<Shown>, answers: &List<Answer>) -> Mem<Stepped>
        requires shown { questions.now ≡ to_show_of (⟦<Self as LineMachine>⟧.state self.old) }
        requires distinct { AreDistinct (each (λ s. s.name) questions.now) }
        ensures comes { ComesAsking (heard_out (⟦<Self as LineMachine>⟧.state self.old) (Answers answers.now))
            (each (λ a. a.0) (values_given_of questions.now answers.now)) (⟦<Self as LineMachine>⟧.state self.old)
            (⟦<Self as LineMachine>⟧.state self.new) result }
        ensures borrows { borrows_of self.new ≡ borrows_of self.old }
    {
        let values = values_given(self.alloc, questions.as_slice(), answers.as_slice())?;
        let told = says(self.alloc, 0, b"ok")?;
        let desk = &mut self.desk;
        match desk.questions.set_all(values.as_slice()) {
            Ok(()) => {
                self.note_shown(questions.as_slice())?;
                Ok(told)
            }
            Err(error) => refused(self.alloc, b"", error),
        }
    }

    // Nothing is prepared any more, and the questions that were shown are asked.
    fn note_shown(&mut self, questions: &[Shown]) -> Mem<()>
        ensures ok { OnOk result ((⟦<Self as LineMachine>⟧.state self.new) ≡ record
            (⟦<Self as LineMachine>⟧.state self.old) {
              asking = record
                  (⟦<Self as LineMachine>⟧.state self.old).asking {
                    prepared = [];
                    asked = fold with_name
                        (⟦<Self as LineMachine>⟧.state self.old).asking.asked (each (λ s. s.name) questions.now);
                  };
            }) }
        ensures err { OnErr result
            ((⟦<Self as LineMachine>⟧.state self.new) ≡ record
            (⟦<Self as LineMachine>⟧.state self.old) { asking = (⟦<Self as LineMachine>⟧.state self.new).asking }) }
        ensures borrows { borrows_of self.new ≡ borrows_of self.old }
    {
        add_shown(&mut self.asking.asked, questions)?;
        self.asking.prepared.clear();
        Ok(())
    }
}

// Adds the names of the questions at the end, each unless it is there. Where memory runs out, some are added.
fn add_shown(set: &mut NameSet, questions: &[Shown]) -> Mem<()>
    ensures { OnOk result (set.new ≡ fold with_name set.old (each (λ s. s.name) questions.now)) }
{
    for question in questions {
        set.add(&question.name)?;
    }
    Ok(())
}

// Whether a question of this kind has a value, which an answer sets.
fn has_value(kind: Kind) -> bool
    ensures { result ≡ has_value_of kind }
{
    !matches!(kind, Kind::Note | Kind::Txt | Kind::Error | Kind::Title)
}

// The values that the questions were given, each behind its question.
fn values_given(alloc: Global, questions: &[Shown], answers: &[Answer]) -> Mem<List<(Name, Text)>>
    ensures { IfOk result (λ values. values ≡ values_given_of questions.now answers.now) }
{
    let mut values = List::new(alloc);
    for (question, answer) in questions.iter().zip(answers) {
        add_value(&mut values, question, answer)?;
    }
    Ok(values)
}

// Adds the value, where one was given.
fn add_value(values: &mut List<(Name, Text)>, question: &Shown, answer: &Answer) -> Mem<()>
    ensures { OnOk result (values.new ≡ values.old ++ cons_option (value_given question.now answer.now) []) }
{
    match answer {
        Answer::Keep => Ok(()),
        Answer::Value(text) => values.push((question.name.copy()?, text.copy()?)),
    }
}
