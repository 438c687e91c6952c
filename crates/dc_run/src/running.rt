// The call that the program makes.
ghost use Rattle.std.specs.Prelude.{◌≡◌, List, length, map as each, true};
ghost use Rattle.dc_outside.specs.Programs.{IsIdle, IsRunning};
ghost use Rattle.dc_run.specs.EndLines.{end_line, HasSaid};
ghost use Rattle.dc_run.specs.Ends.{status_of};
ghost use Rattle.dc_run.specs.Headline.{HasRunTool, IsRun};
ghost use Rattle.dc_run.specs.Inside.{HasCommand};
ghost use Rattle.dc_run.specs.Rounds.{HasDone};
ghost use Rattle.dc_run.specs.Running.{Awaits};
ghost use Rattle.dc_run.specs.Saves.{Save};
ghost use Rattle.dc_run.specs.Starting.{AreApart, AreOver};
ghost use Rattle.dc_run.specs.World.{IsReady, run_state, world};
ghost use Rattle.dc_run.specs.Roots.{shaped};

use crate::answering::answer_program;
use crate::copying::copy_database;
use crate::drilling::drill_layers;
use crate::finishing::finish_used;
use crate::loading_templates::load_template_files;
use crate::outcome::{End, Outcome, ToolAnswer, end_unwaited, outcome_at};
use crate::saying_answers::say_answers;
use crate::selecting::select;
use crate::serving::{RunAsking, communicate, run_program};
use crate::settings::Settings;
use crate::showing::show;
use crate::starting::{Roots, keeps_changes, start};
use crate::telling::tell_end;
use dc_cli::{Tool, ToolError, read_tool};
use dc_layer::Layer;
use dc_outside::{Child, Files, Link};
use dc_preseed::Choices;
use dc_session::ReadAhead;
use dc_shelf::Shelf;
use dc_text::{List, Text};
use std::alloc::Global;

/// Runs the tool that the words name, over the link `io` and the databases that the configuration at `settings.conf_path` names
/// (debconf.conf(5)). Blank layers of the shelf are moved to its `used`, in the order of the databases.
///
/// `communicate [OWNER]` serves the commands that come on the link, as debconf-communicate(1) does, and answers each line
/// before it reads more. `loadtemplate OWNER FILE ...` loads the templates of files, as debconf-loadtemplate(1) does. `run COMMAND` starts a
/// program behind the link `child` and serves its commands, as debconf(1) does, with the user asked on `io`. `show` prints what a database holds,
/// as debconf-show(1) does, and `copydb` copies items from one database into another, as debconf-copydb(1) does; one of these may come through `io`, and
/// the other go out on it. `set-selections` answers questions
/// before they are asked, as debconf-set-selections(1) does, by the lines that come on the link, and `get-selections` prints such lines of all answers, as
/// debconf-get-selections(1) does. Then what changed in the layers is saved, and the
/// program waited for. `drill N` serves many valid commands over databases of its own, which are nowhere kept, and counts them. `answer COMMAND` starts a
/// program, and asks on `io` what that asks for over its wire, as the other end of the frontend `passthrough` (debconf(7)); it uses no database. An end
/// other than `Done` is told on `err`.
pub fn run_words<L: Link, E: Link, C: Child, F: Files>(
    alloc: Global,
    words: &List<Text>,
    settings: &Settings,
    io: &mut L,
    err: &mut E,
    child: &mut C,
    files: &mut F,
    shelf: &mut Shelf,
) -> Outcome
    requires ready { IsReady state shelf.old }
    requires idle { IsIdle (C.link child.old).program.life }
    // What the tool does is what the plain machine does; what was saved and stands in `used` are its layers, by the end; the end is told on
    // `err`; and a kill at any moment leaves each database as its saves say.
    ensures ran { IsRun words.now settings.now
        (world (L.link io.old) (C.link child.old) (E.link err.old) (F.files files.old) state shelf.old)
        (world (L.link io.new) (C.link child.new) (E.link err.new) (F.files files.new) state shelf.new)
        result }
{
    match read_tool(alloc, words) {
        Err(ToolError::Refused { word }) => end_run(err, End::Usage { word }, 0, 0),
        Err(ToolError::OutOfMemory) => end_run(err, End::OutOfMemory, 0, 0),
        Ok(tool) => run_tool(alloc, &tool, settings, io, err, child, files, shelf),
    }
}

// The databases are loaded, the tool works on them, what it changed is sent and saved, and the program that it started is waited for.
fn run_tool<L: Link, E: Link, C: Child, F: Files>(
    alloc: Global,
    tool: &Tool,
    settings: &Settings,
    io: &mut L,
    err: &mut E,
    child: &mut C,
    files: &mut F,
    shelf: &mut Shelf,
) -> Outcome
    requires ready { IsReady state shelf.old }
    requires idle { IsIdle (C.link child.old).program.life }
    requires command { HasCommand tool.now }
    ensures ran { (saves : List Save) × HasRunTool tool.now settings.now
        (world (L.link io.old) (C.link child.old) (E.link err.old) (F.files files.old) state shelf.old)
        (world (L.link io.new) (C.link child.new) (E.link err.new) (F.files files.new) state shelf.new)
        result saves }
{
    match start(alloc, tool, &settings.conf_path, io, files, shelf) {
        Err(end) => end_run(err, end, 0, 0),
        Ok(roots) => {
            let mut ahead = ReadAhead::new(alloc);
            let answer = use_tool(
                alloc,
                tool,
                &roots,
                settings,
                io,
                err,
                child,
                files,
                &mut shelf.used,
                &mut ahead,
                0,
            );
            let ToolAnswer {
                ended,
                is_started,
                last_code,
                status,
            } = answer;
            let how = finish_used(
                alloc,
                keeps_changes(tool),
                ended,
                io,
                files,
                &mut shelf.used,
            );
            let (end, status) = await_program(child, is_started, how, status);
            end_run(err, end, last_code, status)
        }
    }
}

// The tool works on the layers, by the plans of questions and of templates. What was typed ahead and the code of the last reply so far are handed
// in and back.
fn use_tool<L: Link, E: Link, C: Child, F: Files>(
    alloc: Global,
    tool: &Tool,
    roots: &Roots,
    settings: &Settings,
    io: &mut L,
    err: &mut E,
    child: &mut C,
    files: &mut F,
    used: &mut Vec<Box<dyn Layer>>,
    ahead: &mut ReadAhead,
    last_code: u8,
) -> ToolAnswer
    requires roots { AreOver (shaped roots.now) (length used.old.items) }
    requires apart { AreApart tool.now (shaped roots.now) (length used.old.items) }
    requires idle { IsIdle (C.link child.old).program.life }
    requires command { HasCommand tool.now }
    ensures does { (saves : List Save) × HasDone tool.now (shaped roots.now) settings.now
        (run_state (L.link io.old) (C.link child.old) (E.link err.old) (F.files files.old) (each state used.old.items) ahead.old last_code)
        (run_state (L.link io.new) (C.link child.new) (E.link err.new) (F.files files.new) (each state used.new.items) ahead.new
        result.last_code)
        result saves }
    ensures running { result.is_started ≡ true → IsRunning (C.link child.new).program.life }
{
    match tool {
        Tool::Communicate { owner } => communicate(
            alloc, owner, roots, settings, io, err, files, used, ahead, last_code,
        ),
        Tool::LoadTemplate { owner, paths } => load_template_files(
            alloc,
            err,
            files,
            used,
            &roots.config,
            &roots.templates,
            &settings.lang,
            owner,
            paths,
            last_code,
        ),
        Tool::Run {
            owner,
            frontend,
            priority,
            command,
        } => {
            let asking = RunAsking {
                owner,
                frontend: *frontend,
                priority: *priority,
            };
            run_program(
                alloc, command, &asking, roots, settings, io, err, child, files, used, ahead,
                last_code,
            )
        }
        Tool::Show { database: _, shown } => {
            show(alloc, shown, roots, &settings.lang, io, used, last_code)
        }
        Tool::CopyDb(_) => copy_database(alloc, roots, err, used, last_code),
        Tool::SetSelections {
            verbose,
            check,
            unseen,
        } => {
            let choices = Choices {
                verbose: *verbose,
                check: *check,
                unseen: *unseen,
            };
            select(
                alloc,
                choices,
                roots,
                &settings.lang,
                io,
                err,
                used,
                last_code,
            )
        }
        Tool::GetSelections => {
            say_answers(alloc, roots, &settings.lang, io, err, used, last_code)
        }
        Tool::Drill { count } => {
            drill_layers(alloc, *count, roots, settings, io, used, last_code)
        }
        Tool::Answer { command } => answer_program(alloc, command, io, child, last_code),
    }
}

// Waits for the program, where one was started: when all else is done.
fn await_program<C: Child>(child: &mut C, is_started: bool, how: End, status: u8) -> (End, u8)
    requires running { is_started ≡ true → IsRunning (C.link child.old).program.life }
    ensures { Awaits is_started (C.link child.old) (C.link child.new) how result.0 status result.1 }
{
    if !is_started {
        return (how, status);
    }
    match child.wait() {
        Ok(ended) => (how, ended),
        Err(_) => (end_unwaited(how), status),
    }
}

// The outcome of a run, whose end is told.
fn end_run<E: Link>(err: &mut E, end: End, last_code: u8, status: u8) -> Outcome
    ensures outcome { result ≡ record { status = status_of end status; end = end; last_code = last_code } }
    ensures said { HasSaid (end_line end) (E.link err.old) (E.link err.new) }
{
    tell_end(err, &end);
    outcome_at(end, last_code, status)
}
