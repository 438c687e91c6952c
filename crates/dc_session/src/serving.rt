// A session over layers, behind a link.
ghost use Rattle.std.specs.Prelude.{◌≡◌, ℕ, List, None, Result, IfOk, length, map as each, true, unwrap_or, option_and_then};
ghost use Rattle.std.specs.Result.{result_ok};
ghost use Rattle.dc_conf.specs.Plans.{IsOver, are_disjoint};
ghost use Rattle.dc_conf.specs.Trees.{shape};
ghost use Rattle.dc_question.specs.Asked.{HasPlans, asked, seen};
ghost use Rattle.dc_question.specs.Questions.{Answers};
ghost use Rattle.dc_question.specs.declared.errors.QuestionError.{QuestionError as QuestionErrorOf};
ghost use Rattle.dc_session.specs.Asking.{threshold_by, frontend_by, policy_by};
ghost use Rattle.dc_session.specs.SessionState.{terminal_at, session_at_desk, session_of, borrows_of};
ghost use Rattle.dc_frontend.specs.Frontends.{frontend_of};
ghost use Rattle.dc_frontend.specs.declared.frontend.Frontend.TheVariants.{Teletype as OfTeletype};
ghost use Rattle.dc_session.specs.Serving.{IsServed, Finishes, resources_of, resources_in, session_by};
ghost use Rattle.dc_proto.specs.Priorities.{priority_of};
ghost use Rattle.dc_proto.specs.declared.priority.Priority.TheVariants.{High};

use crate::asking::Asking;
use crate::policy::AskPolicy;
use crate::read_ahead::ReadAhead;
use crate::session::Session;
use crate::session_questions::SessionQuestions;
use crate::stepped::StepError;
use dc_conf::Plan;
use dc_frontend::Frontend;
use dc_layer::Layer;
use dc_outside::{Files, Link};
use dc_proto::Priority;
use dc_question::{QuestionError, Questions};
use dc_serve::{Conversation, LineMachine, LinkEnd, serve_link};
use dc_store::Store;
use dc_text::{Mem, Name, OutOfMemory, Text};
use std::alloc::Global;

/// How a session is set up.
#[derive(Drop)]
pub struct SessionSetup<'s> {
    /// The owner for whom questions are registered.
    pub owner: &'s Name,
    /// The user's language.
    pub lang: &'s Text,
    /// What asks the user. Where nothing is chosen, the question `debconf/frontend` says it, and else it is the teletype (debconf(7)).
    pub frontend: Option<Frontend>,
    /// The least priority of a question that is shown. Where none is chosen, the question `debconf/priority` says which (debconf(7)).
    pub threshold: Option<Priority>,
    /// Whether questions that are skipped, as no user is there, become seen.
    pub nonint_seen: bool,
}

/// Serves the commands that come on the link over these layers and files, by the plans of questions and of templates, and finishes the
/// session. A user is asked on the terminal, where what was typed ahead is used first, and what isn't used stays ahead. The layers
/// are given back as it left them, in their order. The code of the last reply so far is handed in and back.
pub fn serve_layers<L: Link, T: Link, E: Link, F: Files>(
    alloc: Global,
    io: &mut L,
    terminal: &mut T,
    ahead: &mut ReadAhead,
    err: &mut E,
    files: &mut F,
    layers: &mut Vec<Box<dyn Layer>>,
    config: &Plan,
    templates: &Plan,
    setup: &SessionSetup<'_>,
    last_code: u8,
) -> Conversation<StepError>
    requires config { IsOver (shape config.now) (length layers.old.items) }
    requires templates { IsOver (shape templates.now) (length layers.old.items) }
    requires disjoint { are_disjoint (shape config.now) (shape templates.now) ≡ true }
    ensures { IsServed
        (session_by setup.now (shape config.now) (shape templates.now)
        (resources_of (each state layers.old.items) (F.files files.old) (terminal_at (T.link terminal.old) ahead.old) (E.link err.old)))
        (resources_of (each state layers.new.items) (F.files files.new) (terminal_at (T.link terminal.new) ahead.new) (E.link err.new))
        (L.link io.old) (L.link io.new) result.end last_code result.last_code }
{
    let mut store = Store::new(alloc, std::mem::replace(layers, Vec::new(alloc)));
    let questions = Questions::new(alloc, &mut store, config, templates, setup.lang);
    let desk = SessionQuestions::new(questions, setup.owner);
    match ask_policy(alloc, &desk.questions, setup) {
        Ok(policy) => {
            let mut asking = Asking::nothing(alloc);
            serve_desk(
                alloc,
                io,
                terminal,
                ahead,
                err,
                files,
                layers,
                desk,
                policy,
                &mut asking,
                last_code,
            )
        }
        Err(_) => {
            *layers = desk.into_layers(alloc);
            Conversation {
                end: LinkEnd::OutOfMemory,
                last_code,
            }
        }
    }
}

// Makes a session at this desk, that asks questions in this manner, and serves the link by it. The layers are put where they are to stand.
fn serve_desk<L: Link, T: Link, E: Link, F: Files>(
    alloc: Global,
    io: &mut L,
    terminal: &mut T,
    ahead: &mut ReadAhead,
    err: &mut E,
    files: &mut F,
    layers: &mut Vec<Box<dyn Layer>>,
    desk: SessionQuestions<'_>,
    policy: AskPolicy,
    asking: &mut Asking,
    last_code: u8,
) -> Conversation<StepError>
    ensures { IsServed
        (session_at_desk state desk.entry (F.files files.old) (terminal_at (T.link terminal.old) ahead.old) (E.link err.old) policy asking.old)
        (resources_of (each state layers.new.items) (F.files files.new) (terminal_at (T.link terminal.new) ahead.new) (E.link err.new))
        (L.link io.old) (L.link io.new) result.end last_code result.last_code }
{
    let mut session = Session::new(alloc, desk, files, terminal, ahead, err, policy, asking);
    let ended = serve_session(alloc, io, &mut session, last_code);
    let (desk, files_left, terminal_left, ahead_left, err_left) = session.into_parts();
    let_go(files_left);
    let_go(terminal_left);
    let_go(ahead_left);
    let_go(err_left);
    *layers = desk.into_layers(alloc);
    ended
}

// Nothing more is done with it.
fn let_go<X>(x: &mut X)
    ensures { x.new ≡ x.old }
{}

// Serves the link by this session, and finishes it. A machine that stands around the session holds it by `&mut`, and is served in its place:
// `serve_link` takes any machine, and `finish_served` the session behind it.
fn serve_session<'s, 'f, 't, 'h, 'e, L: Link, F: Files, T: Link, E: Link>(
    alloc: Global,
    io: &mut L,
    session: &mut Session<'s, 'f, 't, 'h, 'e, F, T, E>,
    last_code: u8,
) -> Conversation<StepError>
    ensures served { IsServed (session_of state F.files T.link E.link session.old)
        (resources_in (session_of state F.files T.link E.link session.new))
        (L.link io.old) (L.link io.new) result.end last_code result.last_code }
    ensures borrows { borrows_of session.new ≡ borrows_of session.old }
{
    let served = serve_link(alloc, io, session, last_code);
    finish_served(session, served)
}

/// How the questions of a session are asked that is set up so: as was chosen, and else as questions say (debconf(7)).
pub fn ask_policy(
    alloc: Global,
    questions: &Questions<'_>,
    setup: &SessionSetup<'_>,
) -> Mem<AskPolicy>
    requires { HasPlans questions.now }
    ensures { IfOk result (λ policy. policy ≡ seen (asked state questions.now)
        (policy_by setup.now.frontend setup.now.threshold setup.now.nonint_seen)) }
{
    let frontend = frontend(alloc, questions, setup.frontend)?;
    let threshold = threshold(alloc, questions, setup.threshold)?;
    Ok(AskPolicy {
        frontend,
        threshold,
        nonint_seen: setup.nonint_seen,
    })
}

// What asks the user: what was chosen, else what the value of `debconf/frontend` names, else the teletype.
fn frontend(alloc: Global, questions: &Questions<'_>, chosen: Option<Frontend>) -> Mem<Frontend>
    requires { HasPlans questions.now }
    ensures { IfOk result (λ frontend. frontend ≡ seen (asked state questions.now) (frontend_by chosen)) }
{
    match chosen {
        Some(frontend) => Ok(frontend),
        None => said_frontend(alloc, questions),
    }
}

// What the value of `debconf/frontend` names, else the teletype.
fn said_frontend(alloc: Global, questions: &Questions<'_>) -> Mem<Frontend>
    requires { HasPlans questions.now }
    ensures { IfOk result (λ frontend. frontend ≡ seen (asked state questions.now) (frontend_by None)) }
{
    let Ok(name) = Name::read(alloc, b"debconf/frontend") else {
        return Err(OutOfMemory);
    };
    frontend_said(questions.value(&name))
}

// What the text names that is read, else the teletype.
fn frontend_said(said: Result<Text, QuestionError>) -> Mem<Frontend>
    ensures { (reading : Result (List ℕ) QuestionErrorOf) → Answers said reading → IfOk result
        (λ frontend. frontend ≡ unwrap_or (option_and_then frontend_of (result_ok reading)) OfTeletype) }
{
    match said {
        Ok(word) => Ok(Frontend::read(word.bytes()).unwrap_or(Frontend::Teletype)),
        Err(QuestionError::OutOfMemory) => Err(OutOfMemory),
        Err(_) => Ok(Frontend::Teletype),
    }
}

// The least priority of a question that is shown: the one that was chosen, else the one that the value of `debconf/priority` names,
// else high.
fn threshold(alloc: Global, questions: &Questions<'_>, chosen: Option<Priority>) -> Mem<Priority>
    requires { HasPlans questions.now }
    ensures { IfOk result (λ threshold. threshold ≡ seen (asked state questions.now) (threshold_by chosen)) }
{
    match chosen {
        Some(priority) => Ok(priority),
        None => said_threshold(alloc, questions),
    }
}

// The priority that the value of `debconf/priority` names, else high.
fn said_threshold(alloc: Global, questions: &Questions<'_>) -> Mem<Priority>
    requires { HasPlans questions.now }
    ensures { IfOk result (λ threshold. threshold ≡ seen (asked state questions.now) (threshold_by None)) }
{
    let Ok(name) = Name::read(alloc, b"debconf/priority") else {
        return Err(OutOfMemory);
    };
    priority_said(questions.value(&name))
}

// The priority that the text names that is read, else high.
fn priority_said(said: Result<Text, QuestionError>) -> Mem<Priority>
    ensures { (reading : Result (List ℕ) QuestionErrorOf) → Answers said reading → IfOk result
        (λ priority. priority ≡ unwrap_or (option_and_then priority_of (result_ok reading)) High) }
{
    match said {
        Ok(word) => Ok(Priority::read(word.bytes()).unwrap_or(Priority::High)),
        Err(QuestionError::OutOfMemory) => Err(OutOfMemory),
        Err(_) => Ok(Priority::High),
    }
}

/// Finishes a session whose link was served to this end, by itself or by a machine around it, unless memory ran out or a line wasn't heeded to
/// its end, and tells what the layers told at that.
pub fn finish_served<'s, 'f, 't, 'h, 'e, F: Files, T: Link, E: Link, B: Drop>(
    session: &mut Session<'s, 'f, 't, 'h, 'e, F, T, E>,
    served: Conversation<B>,
) -> Conversation<B>
    requires plans { HasPlans session.old.desk.questions }
    ensures finishes { Finishes served.end (session_of state F.files T.link E.link session.old)
        (resources_in (session_of state F.files T.link E.link session.new)) result.end }
    ensures rest { session_of state F.files T.link E.link session.new ≡ record
        (session_of state F.files T.link E.link session.old) {
          store = (session_of state F.files T.link E.link session.new).store;
          err = (session_of state F.files T.link E.link session.new).err;
        } }
    ensures code { result.last_code ≡ served.last_code }
    ensures borrows { borrows_of session.new ≡ borrows_of session.old }
{
    let Conversation { end, last_code } = served;
    let end = match end {
        LinkEnd::OutOfMemory => LinkEnd::OutOfMemory,
        LinkEnd::Broken(error) => LinkEnd::Broken(error),
        ended => match session.finish() {
            Ok(()) => {
                session.tell_store();
                ended
            }
            Err(_) => LinkEnd::OutOfMemory,
        },
    };
    Conversation { end, last_code }
}
