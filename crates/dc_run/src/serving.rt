// The tools that serve commands.
ghost use Rattle.std.specs.Prelude.{◌≡◌, ◌<◌, List, ℕ, length, map as each, true};
ghost use Rattle.dc_conf.specs.Plans.{are_disjoint};
ghost use Rattle.dc_outside.specs.Programs.{IsIdle, IsRunning};
ghost use Rattle.dc_outside.specs.State.{LinkState};
ghost use Rattle.dc_run.specs.Jobs.{HasCommunicated};
ghost use Rattle.dc_run.specs.Inside.{HasServedProgram, asked_run};
ghost use Rattle.dc_run.specs.Running.{HasRunProgram, end_unstarted as end_unstarted_of};
ghost use Rattle.dc_run.specs.Starting.{AreOver, begun, resources_for, session_at};
ghost use Rattle.dc_run.specs.World.{links_of, run_state};
ghost use Rattle.dc_run.specs.Saves.{Save};
ghost use Rattle.dc_run.specs.SavingSession.{IsServedSaving};
ghost use Rattle.dc_session.specs.Serving.{resources_of};
ghost use Rattle.dc_session.specs.SessionState.{terminal_at};
ghost use Rattle.dc_cli.specs.declared.tool.Tool.TheVariants.{Communicate};
ghost use Rattle.dc_conf.specs.Trees.{shape};
ghost use Rattle.dc_run.specs.Roots.{shaped};

use crate::outcome::{ToolAnswer, ToolEnd, tool_end};
use crate::saving_session::{SavingBreak, serve_saving};
use crate::settings::Settings;
use crate::starting::{Roots, chosen, chosen_frontend, first_of};
use dc_frontend::Frontend;
use dc_layer::Layer;
use dc_outside::{Child, Files, Link, LinkError};
use dc_proto::Priority;
use dc_serve::Conversation;
use dc_session::{NoTerminal, ReadAhead, SessionSetup};
use dc_text::{List, Name, Text};
use std::alloc::Global;

/// For whom the commands of a program are served, and what its words choose of how the user is asked.
#[derive(Drop)]
pub struct RunAsking<'r> {
    pub owner: &'r Name,
    pub frontend: Option<Frontend>,
    pub priority: Option<Priority>,
}

/// Serves the commands that come on the link over the layers, for the owner (debconf-communicate(1)). Nobody is asked. The code of the last
/// reply so far is handed in and back.
pub fn communicate<L: Link, E: Link, F: Files>(
    alloc: Global,
    owner: &Name,
    roots: &Roots,
    settings: &Settings,
    io: &mut L,
    err: &mut E,
    files: &mut F,
    used: &mut Vec<Box<dyn Layer>>,
    ahead: &mut ReadAhead,
    last_code: u8,
) -> ToolAnswer
    requires roots { AreOver (shaped roots.now) (length used.old.items) }
    requires disjoint { are_disjoint (shape roots.now.config) (shape roots.now.templates) ≡ true }
    ensures served { (saves : List Save) × ((child : LinkState) → HasCommunicated
        (begun (Communicate owner.now)
        (run_state (L.link io.old) child (E.link err.old) (F.files files.old) (each state used.old.items) ahead.old last_code)
        (shaped roots.now) settings.now)
        (L.link io.old) (L.link io.new) last_code result
        (resources_for (Communicate owner.now)
        (run_state (L.link io.new) child (E.link err.new) (F.files files.new) (each state used.new.items) ahead.new result.last_code))
        saves) }
{
    let served = serve_for(
        alloc,
        owner,
        Some(Frontend::Noninteractive),
        chosen(settings, roots),
        roots,
        settings,
        io,
        &mut NoTerminal,
        err,
        files,
        used,
        ahead,
        last_code,
    );
    ToolAnswer {
        ended: tool_end(served.end),
        is_started: false,
        last_code: served.last_code,
        status: served.last_code,
    }
}

/// Starts the program that the command names, and serves its commands over the layers, with the user asked on the link `io` (debconf(1)). It
/// isn't waited for here. The code of the last reply so far is handed in and back.
pub fn run_program<L: Link, E: Link, C: Child, F: Files>(
    alloc: Global,
    command: &List<Text>,
    asking: &RunAsking<'_>,
    roots: &Roots,
    settings: &Settings,
    io: &mut L,
    err: &mut E,
    child: &mut C,
    files: &mut F,
    used: &mut Vec<Box<dyn Layer>>,
    ahead: &mut ReadAhead,
    last_code: u8,
) -> ToolAnswer
    requires roots { AreOver (shaped roots.now) (length used.old.items) }
    requires disjoint { are_disjoint (shape roots.now.config) (shape roots.now.templates) ≡ true }
    requires idle { IsIdle (C.link child.old).program.life }
    requires some { 0 < length command.now }
    ensures ran { (saves : List Save) × HasRunProgram command.now
        (begun (asked_run asking.now command.now)
        (run_state (L.link io.old) (C.link child.old) (E.link err.old) (F.files files.old) (each state used.old.items) ahead.old last_code)
        (shaped roots.now) settings.now)
        (links_of (L.link io.old) (C.link child.old)) (links_of (L.link io.new) (C.link child.new)) last_code result
        (resources_for (asked_run asking.now command.now)
        (run_state (L.link io.new) (C.link child.new) (E.link err.new) (F.files files.new) (each state used.new.items) ahead.new
        result.last_code))
        saves }
    ensures running { result.is_started ≡ true → IsRunning (C.link child.new).program.life }
{
    match child.start(command) {
        Err(error) => ToolAnswer {
            ended: end_unstarted(error),
            is_started: false,
            last_code,
            status: 0,
        },
        Ok(()) => serve_program(
            alloc, asking, roots, settings, io, err, child, files, used, ahead, last_code,
        ),
    }
}

// Serves the commands of the program that was started.
fn serve_program<L: Link, E: Link, C: Child, F: Files>(
    alloc: Global,
    asking: &RunAsking<'_>,
    roots: &Roots,
    settings: &Settings,
    io: &mut L,
    err: &mut E,
    child: &mut C,
    files: &mut F,
    used: &mut Vec<Box<dyn Layer>>,
    ahead: &mut ReadAhead,
    last_code: u8,
) -> ToolAnswer
    requires roots { AreOver (shaped roots.now) (length used.old.items) }
    requires disjoint { are_disjoint (shape roots.now.config) (shape roots.now.templates) ≡ true }
    ensures served { (saves : List Save) × ((command : List (List ℕ)) → HasServedProgram
        (begun (asked_run asking.now command)
        (run_state (L.link io.old) (C.link child.old) (E.link err.old) (F.files files.old) (each state used.old.items) ahead.old last_code)
        (shaped roots.now) settings.now)
        (C.link child.old) (C.link child.new) last_code result
        (resources_for (asked_run asking.now command)
        (run_state (L.link io.new) (C.link child.new) (E.link err.new) (F.files files.new) (each state used.new.items) ahead.new
        result.last_code))
        saves) }
{
    let served = serve_for(
        alloc,
        asking.owner,
        chosen_frontend(asking.frontend, settings, roots),
        first_of(asking.priority, chosen(settings, roots)),
        roots,
        settings,
        child,
        io,
        err,
        files,
        used,
        ahead,
        last_code,
    );
    ToolAnswer {
        ended: tool_end(served.end),
        is_started: true,
        last_code: served.last_code,
        status: 0,
    }
}

// Serves the link over the layers, for the owner, with the user asked on the terminal, by the frontend and the priority that were chosen.
fn serve_for<L: Link, T: Link, E: Link, F: Files>(
    alloc: Global,
    owner: &Name,
    frontend: Option<Frontend>,
    threshold: Option<Priority>,
    roots: &Roots,
    settings: &Settings,
    io: &mut L,
    terminal: &mut T,
    err: &mut E,
    files: &mut F,
    used: &mut Vec<Box<dyn Layer>>,
    ahead: &mut ReadAhead,
    last_code: u8,
) -> Conversation<SavingBreak>
    requires roots { AreOver (shaped roots.now) (length used.old.items) }
    requires disjoint { are_disjoint (shape roots.now.config) (shape roots.now.templates) ≡ true }
    ensures { (saves : List Save) × IsServedSaving
        (session_at
        (resources_of (each state used.old.items) (F.files files.old) (terminal_at (T.link terminal.old) ahead.old) (E.link err.old))
        (shaped roots.now) settings.now owner.now frontend threshold)
        (resources_of (each state used.new.items) (F.files files.new) (terminal_at (T.link terminal.new) ahead.new) (E.link err.new))
        (L.link io.old) (L.link io.new) result.end last_code result.last_code saves }
{
    let setup = SessionSetup {
        owner,
        lang: &settings.lang,
        frontend,
        threshold,
        nonint_seen: settings.nonint_seen,
    };
    serve_saving(
        alloc,
        io,
        terminal,
        ahead,
        err,
        files,
        used,
        &roots.config,
        &roots.templates,
        &setup,
        last_code,
    )
}

// How the tool ends where the program isn't started.
pub(crate) fn end_unstarted(error: LinkError) -> ToolEnd
    ensures { result ≡ end_unstarted_of error }
{
    match error {
        LinkError::Failed => ToolEnd::ChildFault,
        LinkError::OutOfMemory => ToolEnd::OutOfMemory,
    }
}
