// A session over questions and files, and what a line does to them.
ghost use Rattle.std.specs.Prelude.{◌≡◌, IfOk, IfErr};
ghost use Rattle.std.specs.Borrow.{GName};
ghost use Rattle.dc_session.specs.SessionState.{SessionState, terminal_at, session_at_desk, session_of, borrows_of};
ghost use Rattle.dc_question.specs.Asked.{HasPlans};
ghost use Rattle.dc_session.specs.Inside.{DoesHeard};
ghost use Rattle.dc_session.specs.Machine.{Handles as HandlesLine, TakesLine, TellsStore, Aborts as AbortsAt, Steps, DoesShowing};

use crate::asking::Asking;
use crate::policy::AskPolicy;
use crate::read_ahead::ReadAhead;
use crate::replies::{says, sent_in};
use crate::session_questions::SessionQuestions;
use crate::stepped::{StepError, Stepped, lifted};
use dc_layer::Layer;
use dc_outside::{Files, Link, tell};
use dc_proto::{Command, Heard, read_command};
use dc_serve::{LineMachine, Response};
use dc_words::Line;
use std::alloc::Global;

/// A session (debconf-devel(7)): the questions that its commands read and change, the files in which it looks for templates, the terminal
/// on which it asks with what was typed there, standard error, how it asks questions, and what was asked for so far.
#[derive(Drop)]
pub struct Session<'s, 'f, 't, 'h, 'e, F: Files, T: Link, E: Link> {
    pub(crate) alloc: Global,
    pub desk: SessionQuestions<'s>,
    pub files: &'f mut F,
    pub(crate) terminal: &'t mut T,
    pub(crate) ahead: &'h mut ReadAhead,
    pub(crate) err: &'e mut E,
    pub(crate) policy: AskPolicy,
    pub(crate) asking: &'s mut Asking,
}

impl<'s, 'f, 't, 'h, 'e, F: Files, T: Link, E: Link> Session<'s, 'f, 't, 'h, 'e, F, T, E> {
    /// A session at this desk, that looks for templates in these files and asks questions on this terminal, in this manner. What was typed there
    /// and isn't used, and what was asked for so far, are kept where the caller keeps them.
    pub fn new(
        alloc: Global,
        desk: SessionQuestions<'s>,
        files: &'f mut F,
        terminal: &'t mut T,
        ahead: &'h mut ReadAhead,
        err: &'e mut E,
        policy: AskPolicy,
        asking: &'s mut Asking,
    ) -> Session<'s, 'f, 't, 'h, 'e, F, T, E>
        requires plans { HasPlans desk.questions }
        ensures state { ⟦<Self as LineMachine>⟧.state result ≡ session_at_desk (λ b. (Layer-box b).state b.value) desk.entry (F.files files.old)
            (terminal_at (T.link terminal.old) ahead.old) (E.link err.old) policy asking.old }
        ensures borrows { result.desk.questions.store.ghost_name ≡ desk.entry.questions.store.ghost_name }
        ensures files_held { result.files.ghost_name ≡ files.entry.ghost_name }
        ensures terminal_held { result.terminal.ghost_name ≡ terminal.entry.ghost_name }
        ensures ahead_held { result.ahead.ghost_name ≡ ahead.entry.ghost_name }
        ensures err_held { result.err.ghost_name ≡ err.entry.ghost_name }
    {
        Session {
            alloc,
            desk,
            files,
            terminal,
            ahead,
            err,
            policy,
            asking,
        }
    }

    /// The desk of the session, its files, its terminal with what was typed there and isn't used, and standard error, as it left them.
    pub fn into_parts(
        self,
    ) -> (
        SessionQuestions<'s>,
        &'f mut F,
        &'t mut T,
        &'h mut ReadAhead,
        &'e mut E,
    )
        requires plans { HasPlans self.desk.questions }
        ensures desk { result.0 ≡ self.entry.desk }
        ensures files { result.1 ≡ self.entry.files }
        ensures terminal { result.2 ≡ self.entry.terminal }
        ensures ahead { result.3 ≡ self.entry.ahead }
        ensures err { result.4 ≡ self.entry.err }
    {
        let Session {
            alloc: _,
            desk,
            files,
            terminal,
            ahead,
            err,
            policy: _,
            asking: _,
        } = self;
        (desk, files, terminal, ahead, err)
    }

    /// Whether lines are read and replies are sent escaped now.
    pub fn escape(&self) -> bool
        ensures { result ≡ (⟦<Self as LineMachine>⟧.state self.now).asking.escape }
    {
        self.asking.escape
    }

    #[tactic(auto, using(crate::proofs::BreakLemmas::still_breaks))]
    /// What a line comes to, and what it leaves. A line is read in the mode that stands before it. After a refusal, of code 10, 20 or
    /// 100, nothing has changed.
    pub fn step(&mut self, line: &Line) -> Result<Stepped, StepError>
        requires plans { HasPlans self.old.desk.questions }
        ensures ok { IfOk result (λ stepped. Steps (⟦<Self as LineMachine>⟧.state self.old) line.now stepped (⟦<Self as LineMachine>⟧.state self.new)) }
        ensures err { IfErr result (λ error. AbortsAt (⟦<Self as LineMachine>⟧.state self.old) line.now error (⟦<Self as LineMachine>⟧.state self.new)) }
        ensures borrows { borrows_of self.new ≡ borrows_of self.old }
    {
        match line {
            Line::TooLong => lifted(says(self.alloc, 20, b"line too long")),
            Line::Whole(text) => match read_command(self.alloc, text.bytes(), self.asking.escape) {
                Ok(heard) => self.serve(heard),
                Err(_) => Err(StepError::OutOfMemory),
            },
        }
    }

    /// Tells on standard error what the layers told, as far as that takes it, and forgets it.
    pub fn tell_store(&mut self)
        requires plans { HasPlans self.old.desk.questions }
        ensures tells { TellsStore (⟦<Self as LineMachine>⟧.state self.old) (⟦<Self as LineMachine>⟧.state self.new) }
        ensures borrows { borrows_of self.new ≡ borrows_of self.old }
    {
        let desk = &mut self.desk;
        let told = desk.take_told();
        tell(self.err, told.bytes());
    }

    // What a line that was read does.
    fn serve(&mut self, heard: Heard) -> Result<Stepped, StepError>
        ensures does { DoesHeard heard (⟦<Self as LineMachine>⟧.state self.old) (⟦<Self as LineMachine>⟧.state self.new) result }
        ensures borrows { borrows_of self.new ≡ borrows_of self.old }
    {
        match heard {
            Heard::Nothing => Ok(Stepped::Silent),
            Heard::Refused(reply) => Ok(Stepped::Replied(reply)),
            Heard::Known(command) => self.run(&command),
        }
    }

    // What a command is answered, what it shows, and what it does.
    fn run(&mut self, command: &Command) -> Result<Stepped, StepError>
        ensures does { DoesShowing command.now (⟦<Self as LineMachine>⟧.state self.old) (⟦<Self as LineMachine>⟧.state self.new) result }
        ensures borrows { borrows_of self.new ≡ borrows_of self.old }
    {
        match command {
            Command::Version(version) => lifted(self.version(version)),
            Command::Capb(words) => lifted(self.capb(words)),
            Command::SetTitle(word) => lifted(self.set_title(word)),
            Command::Title(text) => lifted(self.title(text)),
            Command::Input { priority, question } => lifted(self.input(*priority, question)),
            Command::BeginBlock => lifted(says(self.alloc, 0, b"")),
            Command::EndBlock => lifted(says(self.alloc, 0, b"")),
            Command::Go => self.go(),
            Command::Clear => lifted(self.clear()),
            Command::Stop => Ok(Stepped::Stopped),
            Command::Get(word) => lifted(self.get(word)),
            Command::Set { question, value } => lifted(self.set(question, value)),
            Command::Reset(word) => lifted(self.reset(word)),
            Command::Subst {
                question,
                key,
                value,
            } => lifted(self.subst(question, key, value)),
            Command::Fget { question, flag } => lifted(self.fget(question, flag)),
            Command::Fset {
                question,
                flag,
                value,
            } => lifted(self.fset(question, flag, value)),
            Command::Metaget { question, field } => lifted(self.metaget(question, field)),
            Command::Register { template, question } => lifted(self.register(template, question)),
            Command::Unregister(word) => lifted(self.unregister(word)),
            Command::Purge => lifted(self.purge()),
            Command::ProgressStart { min, max, question } => {
                self.progress_start(*min, *max, question)
            }
            Command::ProgressSet(number) => self.progress_set(*number),
            Command::ProgressStep(number) => self.progress_step(*number),
            Command::ProgressInfo(word) => self.progress_info(word),
            Command::ProgressStop => lifted(self.progress_stop()),
            Command::LoadTemplateFile { path, owner } => lifted(self.load(path, owner)),
            Command::XSave => Ok(Stepped::Save),
        }
    }
}

impl<'s, 'f, 't, 'h, 'e, F: Files, T: Link, E: Link> LineMachine
    for Session<'s, 'f, 't, 'h, 'e, F, T, E> {
    type Break = StepError;

    ghost State = { SessionState };

    ghost state = { session_of (λ b. (Layer-box b).state b.value) F.files T.link E.link };

    ghost handles = { HandlesLine };

    ghost steps = { TakesLine };

    ghost aborts = { AbortsAt };

    ghost Borrows = { GName × GName × GName × GName × GName };

    ghost borrows = { borrows_of };

    fn handle(&mut self, line: &Line) -> Result<Response, StepError> {
        let escape = self.escape();
        let stepped = self.step(line)?;
        match sent_in(self.alloc, stepped, escape) {
            Ok(did) => Ok(did),
            Err(_) => Err(StepError::OutOfMemory),
        }
    }

    fn tell(&mut self) {
        self.tell_store();
    }
}
