// A session that saves where a line asks for it.
ghost use Rattle.std.specs.Prelude.{◌≡◌, List, length, map as each, true};
ghost use Rattle.std.specs.Borrow.{GName};
ghost use Rattle.dc_conf.specs.Plans.{IsOver, are_disjoint};
ghost use Rattle.dc_conf.specs.Trees.{shape};
ghost use Rattle.dc_run.specs.Inside.{SavesAsked, is_saving as is_saving_at, session_in};
ghost use Rattle.dc_run.specs.Saves.{IsSave, Save, kept_by};
ghost use Rattle.dc_run.specs.SavingSession.{HandlesSaving, TakesSaving, BreaksSaving, IsServedSaving};
ghost use Rattle.dc_session.specs.Serving.{resources_in, resources_of, session_by};
ghost use Rattle.dc_session.specs.SessionState.{SessionState, borrows_of, session_at_desk, session_of, terminal_at};
ghost use Rattle.dc_store.specs.Views.{store_in};

use crate::finishing::save_all;
use dc_conf::Plan;
use dc_layer::Layer;
use dc_outside::{Files, Link};
use dc_question::Questions;
use dc_save::SaveError;
use dc_serve::{Conversation, LineMachine, LinkEnd, Response, serve_link};
use dc_session::{
    AskPolicy, Asking, ReadAhead, Session, SessionQuestions, SessionSetup, StepError, Stepped,
    ask_policy, finish_served, sent_in,
};
use dc_store::Store;
use dc_words::Line;
use std::alloc::Global;
use std::marker::PhantomData;

/// Why a line of a session with its saves isn't heeded to its end.
#[derive(Drop)]
pub enum SavingBreak {
    /// The session itself broke off.
    Step(StepError),
    /// The save that the line asks for wasn't done.
    Save(SaveError),
}

/// A session with what saves its layers, and stands around it: where a line asks for a save, all layers are saved before its reply is out.
#[derive(Drop)]
pub struct SavingSession<'s, 'f, 't, 'h, 'e, F: Files, T: Link, E: Link> {
    alloc: Global,
    session: Session<'s, 'f, 't, 'h, 'e, F, T, E>,
    of: PhantomData<Box<dyn Layer>>,
}

impl<'s, 'f, 't, 'h, 'e, F: Files, T: Link, E: Link> LineMachine
    for SavingSession<'s, 'f, 't, 'h, 'e, F, T, E> {
    type Break = SavingBreak;

    ghost State = { SessionState };

    ghost state = { λ s. session_of (λ b. (Layer-box b).state b.value) F.files T.link E.link s.session };

    ghost handles = { HandlesSaving };

    ghost steps = { TakesSaving };

    ghost aborts = { BreaksSaving };

    ghost Borrows = { GName × GName × GName × GName × GName };

    ghost borrows = { λ s. borrows_of s.session };

    fn handle(&mut self, line: &Line) -> Result<Response, SavingBreak> {
        let escape = self.session.escape();
        let stepped = match self.session.step(line) {
            Ok(stepped) => stepped,
            Err(error) => return Err(SavingBreak::Step(error)),
        };
        let asks = is_saving(&stepped);
        let did = match sent_in(self.alloc, stepped, escape) {
            Ok(did) => did,
            Err(_) => return Err(SavingBreak::Step(StepError::OutOfMemory)),
        };
        if !asks {
            return Ok(did);
        }
        match save_session(self.alloc, &mut self.session) {
            Ok(()) => Ok(did),
            Err(error) => Err(SavingBreak::Save(error)),
        }
    }

    fn tell(&mut self) {
        self.session.tell_store();
    }
}

// Whether a line came to a save.
fn is_saving(stepped: &Stepped) -> bool
    ensures { result ≡ is_saving_at stepped.now }
{
    match stepped {
        Stepped::Save => true,
        Stepped::Silent | Stepped::Replied(_) | Stepped::Stopped => false,
    }
}

// Saves all layers of the session, and marks them as saved.
fn save_session<'s, 'f, 't, 'h, 'e, F: Files, T: Link, E: Link>(
    alloc: Global,
    session: &mut Session<'s, 'f, 't, 'h, 'e, F, T, E>,
) -> Result<(), SaveError>
    ensures saves { SavesAsked (session_in state F.files T.link E.link session.old) (session_in state F.files T.link E.link session.new) result }
    ensures borrows { borrows_of session.new ≡ borrows_of session.old }
{
    let desk = &mut session.desk;
    save_desk(alloc, session.files, desk)
}

// The same of those at a desk.
fn save_desk<F: Files>(
    alloc: Global,
    files: &mut F,
    desk: &mut SessionQuestions<'_>,
) -> Result<(), SaveError>
    ensures is { IsSave (record {
      layers = (store_in state desk.old.questions.store.now).layers;
      before = F.files files.old;
      after = F.files files.new;
      answer = result;
    }) }
    ensures layers { (store_in state desk.new.questions.store.now).layers ≡ kept_by result (store_in state desk.old.questions.store.now).layers }
    ensures told { desk.new.questions.store.now.told ≡ desk.old.questions.store.now.told }
    ensures context { desk.new.questions.context ≡ desk.old.questions.context }
    ensures owner { desk.new.owner.now ≡ desk.old.owner.now }
    ensures borrows { desk.new.questions.store.ghost_name ≡ desk.old.questions.store.ghost_name }
{
    save_store(alloc, files, &mut desk.questions)
}

// The same of those of these questions.
#[tactic(auto, using(crate::proofs::StartLemmas::whole_slice))]
fn save_store<F: Files>(
    alloc: Global,
    files: &mut F,
    questions: &mut Questions<'_>,
) -> Result<(), SaveError>
    ensures is { IsSave (record {
      layers = (store_in state questions.old.store.now).layers;
      before = F.files files.old;
      after = F.files files.new;
      answer = result;
    }) }
    ensures layers { (store_in state questions.new.store.now).layers ≡ kept_by result (store_in state questions.old.store.now).layers }
    ensures count { length questions.new.store.now.layers.items ≡ length questions.old.store.now.layers.items }
    ensures told { questions.new.store.now.told ≡ questions.old.store.now.told }
    ensures context { questions.new.context ≡ questions.old.context }
    ensures borrows { questions.new.store.ghost_name ≡ questions.old.store.ghost_name }
{
    let store = &mut *questions.store;
    save_layers(alloc, files, store.layers.as_mut_slice())
}

// Saves these layers, and marks them as saved.
fn save_layers<F: Files>(
    alloc: Global,
    files: &mut F,
    layers: &mut [Box<dyn Layer>],
) -> Result<(), SaveError>
    ensures is { IsSave (record { layers = each state layers.old; before = F.files files.old; after = F.files files.new; answer = result }) }
    ensures layers { each state layers.new ≡ kept_by result (each state layers.old) }
{
    save_all(alloc, files, layers)
}

/// Serves the commands that come on the link over these layers and files, as `dc_session::serve_layers` does, and saves all layers wherever a line
/// asks for that.
pub fn serve_saving<L: Link, T: Link, E: Link, F: Files>(
    alloc: Global,
    io: &mut L,
    terminal: &mut T,
    ahead: &mut ReadAhead,
    err: &mut E,
    files: &mut F,
    layers: &mut Vec<Box<dyn Layer>>,
    config: &Plan,
    templates: &Plan,
    setup: &SessionSetup<'_>,
    last_code: u8,
) -> Conversation<SavingBreak>
    requires config { IsOver (shape config.now) (length layers.old.items) }
    requires templates { IsOver (shape templates.now) (length layers.old.items) }
    requires disjoint { are_disjoint (shape config.now) (shape templates.now) ≡ true }
    ensures { (saves : List Save) × IsServedSaving
        (session_by setup.now (shape config.now) (shape templates.now)
        (resources_of (each state layers.old.items) (F.files files.old) (terminal_at (T.link terminal.old) ahead.old) (E.link err.old)))
        (resources_of (each state layers.new.items) (F.files files.new) (terminal_at (T.link terminal.new) ahead.new) (E.link err.new))
        (L.link io.old) (L.link io.new) result.end last_code result.last_code saves }
{
    let mut store = Store::new(alloc, std::mem::replace(layers, Vec::new(alloc)));
    let questions = Questions::new(alloc, &mut store, config, templates, setup.lang);
    let desk = SessionQuestions::new(questions, setup.owner);
    match ask_policy(alloc, &desk.questions, setup) {
        Ok(policy) => {
            let mut asking = Asking::nothing(alloc);
            serve_desk(
                alloc,
                io,
                terminal,
                ahead,
                err,
                files,
                layers,
                desk,
                policy,
                &mut asking,
                last_code,
            )
        }
        Err(_) => {
            *layers = desk.into_layers(alloc);
            Conversation {
                end: LinkEnd::OutOfMemory,
                last_code,
            }
        }
    }
}

// Makes a session at this desk, that asks questions in this manner, and serves the link by it. The layers are put where they are to stand.
fn serve_desk<L: Link, T: Link, E: Link, F: Files>(
    alloc: Global,
    io: &mut L,
    terminal: &mut T,
    ahead: &mut ReadAhead,
    err: &mut E,
    files: &mut F,
    layers: &mut Vec<Box<dyn Layer>>,
    desk: SessionQuestions<'_>,
    policy: AskPolicy,
    asking: &mut Asking,
    last_code: u8,
) -> Conversation<SavingBreak>
    ensures { (saves : List Save) × IsServedSaving
        (session_at_desk state desk.entry (F.files files.old) (terminal_at (T.link terminal.old) ahead.old) (E.link err.old) policy asking.old)
        (resources_of (each state layers.new.items) (F.files files.new) (terminal_at (T.link terminal.new) ahead.new) (E.link err.new))
        (L.link io.old) (L.link io.new) result.end last_code result.last_code saves }
{
    let session = Session::new(alloc, desk, files, terminal, ahead, err, policy, asking);
    let mut saving = SavingSession {
        alloc,
        session,
        of: PhantomData,
    };
    let ended = serve_session(alloc, io, &mut saving, last_code);
    let SavingSession {
        alloc: _,
        session,
        of: _,
    } = saving;
    let (desk, files_left, terminal_left, ahead_left, err_left) = session.into_parts();
    let_go(files_left);
    let_go(terminal_left);
    let_go(ahead_left);
    let_go(err_left);
    *layers = desk.into_layers(alloc);
    ended
}

// Nothing more is done with it.
fn let_go<X>(x: &mut X)
    ensures { x.new ≡ x.old }
{}

// Serves the link by this session with its saves, and finishes it, unless a save failed.
fn serve_session<'s, 'f, 't, 'h, 'e, L: Link, F: Files, T: Link, E: Link>(
    alloc: Global,
    io: &mut L,
    saving: &mut SavingSession<'s, 'f, 't, 'h, 'e, F, T, E>,
    last_code: u8,
) -> Conversation<SavingBreak>
    ensures served { (saves : List Save) × IsServedSaving (session_of state F.files T.link E.link saving.old.session)
        (resources_in (session_of state F.files T.link E.link saving.new.session))
        (L.link io.old) (L.link io.new) result.end last_code result.last_code saves }
    ensures borrows { borrows_of saving.new.session ≡ borrows_of saving.old.session }
{
    let served = serve_link(alloc, io, saving, last_code);
    finish_served(&mut saving.session, served)
}
