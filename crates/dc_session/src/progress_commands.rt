// Commands of the progress bar.
ghost use Rattle.std.specs.Prelude.{◌≡◌, ◌+◌, ◌++◌, [], Option, Some, None, IfOk, codes, decimal};
ghost use Rattle.dc_proto.specs.Replies.{reply};
ghost use Rattle.dc_proto.specs.declared.command.Command.TheVariants as command;
ghost use Rattle.dc_session.specs.Answers.{reply_asking, with_bar};
ghost use Rattle.dc_session.specs.Asking.{description as description_of};
ghost use Rattle.dc_session.specs.Displays.{OneLine, where_asked, line_read, percent as percent_of, percent_line};
ghost use Rattle.dc_session.specs.Inside.{Comes, TellsUser};
ghost use Rattle.dc_session.specs.Machine.{Does, DoesShowing};
ghost use Rattle.dc_session.specs.SessionState.{borrows_of};

use crate::asking::Bar;
use crate::replies::{missing, named, says};
use crate::session::Session;
use crate::stepped::{StepError, Stepped, lifted};
use dc_frontend::Frontend;
use dc_outside::{Files, Link};
use dc_question::QuestionError;
use dc_serve::LineMachine;
use dc_text::{Mem, Name, Text};
use std::alloc::Global;

const NO_BAR: &[u8] = b"no progress bar";

impl<'s, 'f, 't, 'h, 'e, F: Files, T: Link, E: Link> Session<'s, 'f, 't, 'h, 'e, F, T, E> {
    pub(crate) fn progress_start(
        &mut self,
        min: u32,
        max: u32,
        word: &Text,
    ) -> Result<Stepped, StepError>
        ensures does { DoesShowing (command.ProgressStart min max word.now) (⟦<Self as LineMachine>⟧.state self.old)
            (⟦<Self as LineMachine>⟧.state self.new) result }
        ensures borrows { borrows_of self.new ≡ borrows_of self.old }
    {
        let Some(name) = named(self.alloc, word)? else {
            return lifted(missing(self.alloc, word.bytes()));
        };
        if !self.desk.questions.exists(&name) {
            return lifted(missing(self.alloc, name.bytes()));
        }
        self.tell_description(&name)?;
        lifted(self.put_bar(Some(Bar {
            min,
            max,
            place: min,
        })))
    }

    pub(crate) fn progress_set(&mut self, number: u32) -> Result<Stepped, StepError>
        ensures does { DoesShowing (command.ProgressSet number) (⟦<Self as LineMachine>⟧.state self.old) (⟦<Self as LineMachine>⟧.state self.new) result }
        ensures borrows { borrows_of self.new ≡ borrows_of self.old }
    {
        match self.asking.bar {
            None => lifted(says(self.alloc, 10, NO_BAR)),
            Some(bar) => {
                let moved = bar.at(u64::from(number));
                self.tell_percent(moved)?;
                lifted(self.put_bar(Some(moved)))
            }
        }
    }

    pub(crate) fn progress_step(&mut self, number: u32) -> Result<Stepped, StepError>
        ensures does { DoesShowing (command.ProgressStep number) (⟦<Self as LineMachine>⟧.state self.old) (⟦<Self as LineMachine>⟧.state self.new) result }
        ensures borrows { borrows_of self.new ≡ borrows_of self.old }
    {
        match self.asking.bar {
            None => lifted(says(self.alloc, 10, NO_BAR)),
            Some(bar) => {
                let moved = bar.further(number);
                self.tell_percent(moved)?;
                lifted(self.put_bar(Some(moved)))
            }
        }
    }

    pub(crate) fn progress_info(&mut self, word: &Text) -> Result<Stepped, StepError>
        ensures does { DoesShowing (command.ProgressInfo word.now) (⟦<Self as LineMachine>⟧.state self.old) (⟦<Self as LineMachine>⟧.state self.new) result }
        ensures borrows { borrows_of self.new ≡ borrows_of self.old }
    {
        if self.asking.bar.is_none() {
            return lifted(says(self.alloc, 10, NO_BAR));
        }
        let Some(name) = named(self.alloc, word)? else {
            return lifted(missing(self.alloc, word.bytes()));
        };
        if !self.desk.questions.exists(&name) {
            return lifted(missing(self.alloc, name.bytes()));
        }
        self.tell_description(&name)?;
        lifted(says(self.alloc, 0, b"OK"))
    }

    pub(crate) fn progress_stop(&mut self) -> Mem<Stepped>
        ensures does { Does command.ProgressStop (⟦<Self as LineMachine>⟧.state self.old) (⟦<Self as LineMachine>⟧.state self.new) result }
        ensures borrows { borrows_of self.new ≡ borrows_of self.old }
    {
        match self.asking.bar {
            None => says(self.alloc, 10, NO_BAR),
            Some(_) => self.put_bar(None),
        }
    }

    // Tells the user what the question is about, where one is asked.
    fn tell_description(&mut self, name: &Name) -> Result<(), StepError>
        ensures tells { TellsUser
            (where_asked (⟦<Self as LineMachine>⟧.state self.old).policy.frontend
            (line_read (description_of (⟦<Self as LineMachine>⟧.state self.old).store.layers (⟦<Self as LineMachine>⟧.state self.old).at name.now)))
            (⟦<Self as LineMachine>⟧.state self.old) (⟦<Self as LineMachine>⟧.state self.new) result }
        ensures borrows { borrows_of self.new ≡ borrows_of self.old }
    {
        if self.policy.frontend == Frontend::Noninteractive {
            return Ok(());
        }
        match self.description(name) {
            Ok(text) => self.tell_line(&text),
            Err(QuestionError::OutOfMemory) => Err(StepError::OutOfMemory),
            Err(_) => Ok(()),
        }
    }

    // Tells the user how far the bar is, where one is asked.
    fn tell_percent(&mut self, bar: Bar) -> Result<(), StepError>
        ensures tells { TellsUser (where_asked (⟦<Self as LineMachine>⟧.state self.old).policy.frontend (percent_line bar))
            (⟦<Self as LineMachine>⟧.state self.old) (⟦<Self as LineMachine>⟧.state self.new) result }
        ensures borrows { borrows_of self.new ≡ borrows_of self.old }
    {
        if self.policy.frontend == Frontend::Noninteractive {
            return Ok(());
        }
        let line = percent_text(self.alloc, bar)?;
        self.tell_line(&line)
    }

    // Tells a line, where a user is asked.
    fn tell_line(&mut self, line: &Text) -> Result<(), StepError>
        ensures tells { TellsUser (where_asked (⟦<Self as LineMachine>⟧.state self.old).policy.frontend (OneLine line.now))
            (⟦<Self as LineMachine>⟧.state self.old) (⟦<Self as LineMachine>⟧.state self.new) result }
        ensures borrows { borrows_of self.new ≡ borrows_of self.old }
    {
        self.ahead
            .tell(self.policy.frontend, self.terminal, self.asking, line)
    }

    #[tactic(auto, using(dc_store::proofs::RowLemmas::same_all_refl))]
    // This is the bar.
    fn put_bar(&mut self, bar: Option<Bar>) -> Mem<Stepped>
        ensures comes { Comes (reply_asking (⟦<Self as LineMachine>⟧.state self.old) (reply 0 (codes "OK"))
            (with_bar (⟦<Self as LineMachine>⟧.state self.old).asking bar)) [] (⟦<Self as LineMachine>⟧.state self.old)
            (⟦<Self as LineMachine>⟧.state self.new) result }
        ensures borrows { borrows_of self.new ≡ borrows_of self.old }
    {
        let told = says(self.alloc, 0, b"OK")?;
        self.asking.bar = bar;
        Ok(told)
    }
}

// How far the bar is, as it is told.
fn percent_text(alloc: Global, bar: Bar) -> Mem<Text>
    ensures { IfOk result (λ text. text ≡ decimal (percent_of bar) ++ codes "%") }
{
    let mut text = Text::from_bytes(alloc, bar.percent().to_string(alloc)?.as_bytes())?;
    text.push(b'%')?;
    Ok(text)
}
