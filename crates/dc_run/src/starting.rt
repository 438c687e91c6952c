// What a run does before its tool.
ghost use Rattle.std.specs.Prelude.{◌≡◌, ◌++◌, [], if◌then◌else◌, length, map as each, IfOk, IfErr, OnOk, None, true, codes, is_some, option_and_then};
ghost use Rattle.std.specs.List.{find, list_all};
ghost use Rattle.std.specs.Option.{option_copied, option_or};
ghost use Rattle.dc_cli.specs.declared.tool.Tool.TheVariants.{CopyDb};
ghost use Rattle.dc_frontend.specs.Frontends.{frontend_of};
ghost use Rattle.dc_conf.specs.Configuration.{IsAnswer};
ghost use Rattle.dc_conf.specs.Nodes.{driver_line_of};
ghost use Rattle.dc_layer.specs.State.{is_pipe as is_pipe_of};
ghost use Rattle.dc_proto.specs.Priorities.{priority_of};
ghost use Rattle.dc_shelf.specs.Shelves.{LoadsAll, all_set_up, sources_of};
ghost use Rattle.dc_save.specs.Loading.{text_in};
ghost use Rattle.dc_run.specs.Ends.{end_of_conf as end_of_conf_by, end_of_patterns as end_of_patterns_by, end_of_load as end_of_load_by};
ghost use Rattle.dc_run.specs.Inside.{ArePatternsOf, IsCopyBy, IsMisusedIn, IsUnbuilt, plans_of};
ghost use Rattle.dc_run.specs.Roots.{shaped};
ghost use Rattle.dc_run.specs.Starting.{AreApart, AreOver, Starts, ReadsConf, added_line, are_patterns, chosen as chosen_of, conf_text, has_files as has_files_in, keeps_changes as keeps_changes_of, misused_among, pattern_words, roots};
ghost use Rattle.dc_run.specs.World.{IsReady, ground_of, used_in};

use crate::databases::resolve;
use crate::outcome::{End, PatternAt, end_of_pattern};
use crate::settings::Settings;
use crate::word_patterns::both_patterns;
use dc_cli::{ConfigLine, CopyWords, Tool, is_name_field};
use dc_conf::spec::{LayerSort, LayerSpec};
use dc_conf::{Conf, ConfError, ConfKind, Plan, Resolved, read_conf};
use dc_frontend::Frontend;
use dc_layer::{Layer, Pattern};
use dc_outside::{Files, FilesError, Link};
use dc_proto::Priority;
use dc_save::{LoadError, PipeError};
use dc_shelf::{NotSetUp, Shelf, SourceError, load_all, set_up_all};
use dc_text::{List, Mem, Text};
use std::alloc::Global;

// The databases of tools that stand on no configuration, which are nowhere kept.
const OWN_CONFIGURATION: &[u8] =
    b"Config: config\nTemplates: t\n\nName: config\nDriver: Stack\nStack: a, b\n\nName: a\nDriver: File\nFilename: a\nReject-Name: 2$\n\nName: b\nDriver: File\nFilename: b\n\nName: t\nDriver: File\nFilename: t\n";

/// What a tool takes from the configuration: the plans of its databases, over the layers in `used`, and what it copies by.
#[derive(Drop)]
pub struct Roots {
    pub conf: Conf,
    /// Of questions, unless its words name another database that is shown, or from which it copies.
    pub config: Plan,
    pub templates: Plan,
    /// Of `copydb`.
    pub copy: Option<CopyRoots>,
}

/// What is copied into, and the patterns that choose the items by their names and by their owners (debconf-copydb(1)).
#[derive(Drop)]
pub struct CopyRoots {
    pub dest: Plan,
    pub by_name: Option<Pattern>,
    pub by_owner: Option<Pattern>,
}

/// Reads the configuration, builds the patterns among the tool's words, and sets up and loads a layer for each database that its roots reach. What
/// comes through a pipe is read from the link.
pub fn start<L: Link, F: Files>(
    alloc: Global,
    used: &Tool,
    path: &Text,
    io: &mut L,
    files: &mut F,
    shelf: &mut Shelf,
) -> Result<Roots, End>
    requires { IsReady state shelf.old }
    ensures starts { Starts used.now path.now (sources_of (F.files files.old) (L.link io.old))
        (ground_of (F.files files.new) (L.link io.new) (used_in state shelf.new)) result }
    ensures over { IfOk result (λ roots. AreOver (shaped roots) (length shelf.new.used.items)) }
    ensures apart { IfOk result (λ roots. AreApart used.now (shaped roots) (length shelf.new.used.items)) }
{
    let conf = read_configuration(alloc, used, path, files)?;
    let resolved = resolve(alloc, used, &conf)?;
    refuse_misuse(used, &conf, resolved.specs.as_slice())?;
    let (by_name, by_owner) = patterns_of(alloc, used)?;
    let Resolved { specs, plans } = resolved;
    match set_up_all(shelf, specs.as_slice()) {
        Ok(()) => {}
        Err(refused) => return Err(end_of_patterns(refused)),
    }
    let dash = match Text::from_bytes(alloc, b"-") {
        Ok(dash) => dash,
        Err(_) => return Err(End::OutOfMemory),
    };
    match load_used(alloc, used, io, files, specs.as_slice(), &mut shelf.used) {
        Ok(()) => Ok(roots_of(used, conf, plans, by_name, by_owner)),
        Err(error) => Err(end_of_load(error, dash)),
    }
}

// Refuses a database that comes or goes through a pipe, where the tool isn't the one that copies.
fn refuse_misuse(used: &Tool, conf: &Conf, specs: &[LayerSpec]) -> Result<(), End>
    requires { list_all (λ spec. is_some (driver_line_of conf.now.nodes spec.name)) specs.now ≡ true }
    ensures unmisused { OnOk result (misused_among used.now specs.now ≡ None) }
    ensures misused { IfErr result (IsMisusedIn used.now conf.now specs.now) }
{
    match misused_pipe(used, specs) {
        None => Ok(()),
        Some(spec) => match conf.driver_line(&spec.name) {
            None => unreachable!(),
            Some(line) => Err(End::ConfRefused {
                line,
                kind: ConfKind::PipeUse,
            }),
        },
    }
}

// The first of the databases that comes or goes through a pipe, where the tool isn't the one that copies.
fn misused_pipe<'s>(used: &Tool, specs: &'s [LayerSpec]) -> Option<&'s LayerSpec>
    ensures { option_copied result ≡ misused_among used.now specs.now }
{
    match used {
        Tool::CopyDb(_) => None,
        _ => first_pipe(specs),
    }
}

fn first_pipe(specs: &[LayerSpec]) -> Option<&LayerSpec>
    ensures { option_copied result ≡ find (λ spec. is_pipe_of spec.sort) specs.now }
{
    specs.iter().find(|spec| is_pipe(spec.sort))
}

fn is_pipe(sort: LayerSort) -> bool
    ensures { result ≡ is_pipe_of sort }
{
    matches!(sort, LayerSort::Pipe)
}

// The patterns by which a tool copies.
fn patterns_of(alloc: Global, used: &Tool) -> Result<(Option<Pattern>, Option<Pattern>), End>
    ensures built { IfOk result (λ both. ArePatternsOf used.now both.0 both.1) }
    ensures patterns { IfOk result (λ both. are_patterns (pattern_words used.now) ≡ true) }
    ensures unbuilt { IfErr result (IsUnbuilt (pattern_words used.now)) }
{
    match used {
        Tool::CopyDb(copy) => both_patterns(alloc, &copy.by_name, &copy.by_owner),
        _ => Ok((None, None)),
    }
}

// Loads the layers, each of which was set up, where the tool has any that are kept.
#[tactic(auto, using(crate::proofs::StartLemmas::whole_slice))]
fn load_used<L: Link, F: Files>(
    alloc: Global,
    tool: &Tool,
    io: &mut L,
    files: &mut F,
    specs: &[LayerSpec],
    used: &mut Vec<Box<dyn Layer>>,
) -> Result<(), SourceError>
    requires { each state used.old.items ≡ all_set_up specs.now }
    ensures loads { LoadsAll (if has_files_in tool.now then specs.now else []) (each state used.old.items) (each state used.new.items)
        (sources_of (F.files files.old) (L.link io.old)) (sources_of (F.files files.new) (L.link io.new)) result }
    ensures count { length used.new.items ≡ length specs.now }
{
    if !has_files(tool) {
        return Ok(());
    }
    load_all(alloc, files, io, specs, used.as_mut_slice())
}

// Whether a tool works on databases that are kept in files.
fn has_files(tool: &Tool) -> bool
    ensures { result ≡ has_files_in tool.now }
{
    !matches!(tool, Tool::Drill { .. } | Tool::Answer { .. })
}

/// Whether what a tool changes is saved: not where lines of selections are only checked, nor what `drill` does.
pub fn keeps_changes(tool: &Tool) -> bool
    ensures { result ≡ keeps_changes_of tool.now }
{
    match tool {
        Tool::SetSelections {
            verbose: _,
            check,
            unseen: _,
        } => !check,
        _ => has_files(tool),
    }
}

// The roots of a tool, of its plans in their order and its patterns.
fn roots_of(
    used: &Tool,
    conf: Conf,
    plans: List<Plan>,
    by_name: Option<Pattern>,
    by_owner: Option<Pattern>,
) -> Roots
    requires count { length plans ≡ length (roots used.now conf) }
    ensures conf { result.conf ≡ conf }
    ensures plans { plans_of result ≡ plans }
    ensures copy { IsCopyBy used.now by_name by_owner result.copy }
{
    let mut plans = plans;
    match used {
        Tool::CopyDb(_) => match (plans.pop(), plans.pop(), plans.pop()) {
            (Some(dest), Some(templates), Some(config)) => Roots {
                conf,
                config,
                templates,
                copy: Some(CopyRoots {
                    dest,
                    by_name,
                    by_owner,
                }),
            },
            _ => unreachable!(),
        },
        _ => match (plans.pop(), plans.pop()) {
            (Some(templates), Some(config)) => Roots {
                conf,
                config,
                templates,
                copy: None,
            },
            _ => unreachable!(),
        },
    }
}

/// The priority that was chosen: the first of the setting's and the configuration's word that is one (debconf(7)).
pub fn chosen(settings: &Settings, roots: &Roots) -> Option<Priority>
    ensures { result ≡ chosen_of settings.now (shaped roots.now) }
{
    match priority_in(settings.priority.as_ref()) {
        Some(priority) => Some(priority),
        None => priority_in(roots.conf.priority()),
    }
}

/// The first of the two priorities that is there.
pub fn first_of(first: Option<Priority>, second: Option<Priority>) -> Option<Priority>
    ensures { result ≡ option_or first second }
{
    first.or(second)
}

/// What asks the user, where it is chosen: by the words of a tool, else by the setting's and the configuration's (debconf(7)).
pub fn chosen_frontend(
    given: Option<Frontend>,
    settings: &Settings,
    roots: &Roots,
) -> Option<Frontend>
    ensures { result ≡ option_or given (option_or (option_and_then frontend_of settings.now.frontend) (option_and_then frontend_of roots.now.conf.frontend)) }
{
    given
        .or(frontend_in(settings.frontend.as_ref()))
        .or(frontend_in(roots.conf.frontend()))
}

// The frontend that the word names, where there is one.
fn frontend_in(word: Option<&Text>) -> Option<Frontend>
    ensures { result ≡ option_and_then frontend_of (option_copied word.entry) }
{
    match word {
        None => None,
        Some(word) => Frontend::read(word.bytes()),
    }
}

// The priority that the word names, where there is one.
fn priority_in(word: Option<&Text>) -> Option<Priority>
    ensures { result ≡ option_and_then priority_of (option_copied word.entry) }
{
    match word {
        None => None,
        Some(word) => Priority::read(word.bytes()),
    }
}

// The configuration of a tool at the path. A file that isn't there is the empty text.
fn read_configuration<F: Files>(
    alloc: Global,
    used: &Tool,
    path: &Text,
    files: &mut F,
) -> Result<Conf, End>
    ensures { ReadsConf used.now path.now (F.files files.old) (F.files files.new) result }
{
    let kept = match path.copy() {
        Ok(kept) => kept,
        Err(_) => return Err(End::OutOfMemory),
    };
    if !has_files(used) {
        return match configuration_in(alloc, used, &None) {
            Ok(conf) => Ok(conf),
            Err(error) => Err(end_of_conf(error)),
        };
    }
    match files.read(path) {
        Ok(found) => match configuration_in(alloc, used, &found) {
            Ok(conf) => Ok(conf),
            Err(error) => Err(end_of_conf(error)),
        },
        Err(FilesError::Failed) => Err(End::FilesFault { path: kept }),
        Err(FilesError::OutOfMemory) => Err(End::OutOfMemory),
    }
}

// The configuration of a tool in what was found.
fn configuration_in(alloc: Global, used: &Tool, found: &Option<Text>) -> Result<Conf, ConfError>
    ensures { IsAnswer (conf_text used.now (text_in found.now)) result }
{
    let text = match found {
        None => b"".as_slice(),
        Some(text) => text.bytes(),
    };
    match used {
        Tool::CopyDb(copy) => read_conf(alloc, extended(alloc, text, copy)?.bytes()),
        Tool::Drill { count: _ } => read_conf(alloc, OWN_CONFIGURATION),
        Tool::Answer { command: _ } => read_conf(alloc, OWN_CONFIGURATION),
        _ => read_conf(alloc, text),
    }
}

// A text of a configuration, and what the words of `copydb` add to it.
fn extended(alloc: Global, text: &[u8], copy: &CopyWords) -> Mem<Text>
    ensures { IfOk result (λ all. all ≡ conf_text (CopyDb copy.now) text.now) }
{
    let mut all = Text::from_bytes(alloc, text)?;
    all.push(b'\n')?;
    for line in copy.config.as_slice() {
        append_line(&mut all, line)?;
    }
    Ok(all)
}

fn append_line(text: &mut Text, line: &ConfigLine) -> Mem<()>
    ensures { OnOk result (text.new ≡ text.old ++ added_line line.now) }
{
    if is_name_field(line.field.bytes()) {
        text.push(b'\n')?;
    }
    text.append(line.field.bytes())?;
    text.append(b": ")?;
    text.append(line.value.bytes())?;
    text.push(b'\n')
}

fn end_of_conf(error: ConfError) -> End
    ensures { result ≡ end_of_conf_by error }
{
    match error {
        ConfError::Refused { line, kind } => End::ConfRefused { line, kind },
        ConfError::OutOfMemory => End::OutOfMemory,
    }
}

fn end_of_patterns(refused: NotSetUp) -> End
    ensures { result ≡ end_of_patterns_by refused }
{
    end_of_pattern(PatternAt::Database(refused.place), refused.error)
}

// The end of a run of which a layer isn't loaded. The path of what comes through a pipe is `-`, which is handed in.
fn end_of_load(error: SourceError, dash: Text) -> End
    requires { dash ≡ codes "-" }
    ensures { result ≡ end_of_load_by error }
{
    match error {
        SourceError::Files(LoadError::Failed { path }) => End::FilesFault { path },
        SourceError::Files(LoadError::Damaged { path, line }) => End::Damaged { path, line },
        SourceError::Files(LoadError::OutOfMemory) => End::OutOfMemory,
        SourceError::Pipe(PipeError::Failed) => End::LinkFault,
        SourceError::Pipe(PipeError::Damaged { line }) => End::Damaged { path: dash, line },
        SourceError::Pipe(PipeError::TooLong) => End::TooLong,
        SourceError::Pipe(PipeError::OutOfMemory) => End::OutOfMemory,
    }
}
