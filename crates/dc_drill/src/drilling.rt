// A drill over layers.
ghost use Rattle.std.specs.Prelude.{◌≡◌, IfOk, length, map as each, true};
ghost use Rattle.dc_conf.specs.Plans.{IsOver, are_disjoint};
ghost use Rattle.dc_conf.specs.Trees.{shape};
ghost use Rattle.dc_outside.specs.Memory.{files_of, link_of};
ghost use Rattle.dc_session.specs.FileLoading.{Loads};
ghost use Rattle.dc_session.specs.Serving.{resources_of, session_by};
ghost use Rattle.dc_session.specs.SessionState.{FilesState, LinkState, ScreenState};
ghost use Rattle.dc_session.specs.Asking.{nothing_asked, policy_by};
ghost use Rattle.dc_session.specs.SessionState.{no_terminal, nowhere, session_at_desk};
ghost use Rattle.dc_session.specs.declared.asking.Asking.{Asking};
ghost use Rattle.dc_session.specs.declared.policy.AskPolicy.{AskPolicy as AskPolicyOf};
ghost use Rattle.dc_drill.specs.Commands.{drill_input, template_path};
ghost use Rattle.dc_drill.specs.Drilling.{Drills, drill_files, link_giving};
ghost use Rattle.dc_drill.specs.Inside.{Begins, BeginsOver, ServesTo};
ghost use Rattle.dc_drill.specs.Report.{report};

use crate::commands::commands_text;
use crate::report::report_text;
use dc_conf::Plan;
use dc_layer::Layer;
use dc_outside::{MemFiles, MemLink, Piece};
use dc_question::Questions;
use dc_serve::LinkEnd;
use dc_session::{
    AskPolicy, FileEnd, NoTerminal, ReadAhead, SessionQuestions, SessionSetup, StepError,
    ask_policy, find_templates, serve_layers,
};
use dc_store::Store;
use dc_text::{List, Mem, OutOfMemory, Text};
use std::alloc::Global;

// The file of the one template, and where it stands among the files of a drill, which are in memory.
const TEMPLATE: &[u8] = b"Template: drill/text\nType: string\nDefault: none\nDescription: Drill\n";

const TEMPLATE_PATH: &[u8] = b"drill.templates";

/// Serves the commands for so many questions to a session over these layers, once the template of the questions was loaded for its owner, and answers
/// the text of the five numbers: of commands, of replies of code 0 or 1 and of others, of names that the plan of questions has then, and of bytes of the
/// printed records of these. The files and the links of the session are its own. The layers are given back as the session left them, in their order.
pub fn drill(
    alloc: Global,
    count: u32,
    layers: &mut Vec<Box<dyn Layer>>,
    config: &Plan,
    templates: &Plan,
    setup: &SessionSetup<'_>,
) -> Result<Text, LinkEnd<StepError>>
    requires config { IsOver (shape config.now) (length layers.old.items) }
    requires templates { IsOver (shape templates.now) (length layers.old.items) }
    requires disjoint { are_disjoint (shape config.now) (shape templates.now) ≡ true }
    ensures { (files : FilesState) (terminal : ScreenState) (err : LinkState) → Drills count
        (session_by setup.now (shape config.now) (shape templates.now) (resources_of (each state layers.old.items) files terminal err))
        (each state layers.new.items) result }
{
    let Ok(mut files) = template_files(alloc) else {
        return Err(LinkEnd::OutOfMemory);
    };
    let Ok(mut link) = command_link(alloc, count) else {
        return Err(LinkEnd::OutOfMemory);
    };
    let ended = serve_link_given(
        alloc, &mut files, &mut link, layers, config, templates, setup,
    );
    match ended {
        LinkEnd::Done => match numbers_text(alloc, count, link.talk(), layers, config) {
            Ok(text) => Ok(text),
            Err(_) => Err(LinkEnd::OutOfMemory),
        },
        ended => Err(ended),
    }
}

// The files of a drill.
fn template_files(alloc: Global) -> Mem<MemFiles>
    ensures { IfOk result (λ files. files_of files ≡ drill_files) }
{
    let path = Text::from_bytes(alloc, TEMPLATE_PATH)?;
    let text = Text::from_bytes(alloc, TEMPLATE)?;
    let files = MemFiles::new(alloc, &[(path, text)], &[])?;
    Ok(files)
}

// The link on which the commands come.
fn command_link(alloc: Global, count: u32) -> Mem<MemLink>
    ensures { IfOk result (λ link. link_of link ≡ link_giving (drill_input count)) }
{
    let commands = commands_text(alloc, count)?;
    MemLink::new(alloc, commands.bytes(), &[], &[])
}

// Loads the template, and then serves the link.
fn serve_link_given(
    alloc: Global,
    files: &mut MemFiles,
    link: &mut MemLink,
    layers: &mut Vec<Box<dyn Layer>>,
    config: &Plan,
    templates: &Plan,
    setup: &SessionSetup<'_>,
) -> LinkEnd<StepError>
    requires config { IsOver (shape config.now) (length layers.old.items) }
    requires templates { IsOver (shape templates.now) (length layers.old.items) }
    requires disjoint { are_disjoint (shape config.now) (shape templates.now) ≡ true }
    ensures { ServesTo
        (session_by setup.now (shape config.now) (shape templates.now) (resources_of (each state layers.old.items) (files_of files.old) no_terminal nowhere))
        (link_of link.old) (link_of link.new) result (each state layers.new.items) }
{
    let Ok(policy) = begin(alloc, files, layers, config, templates, setup) else {
        return LinkEnd::OutOfMemory;
    };
    let asking_so = SessionSetup {
        owner: setup.owner,
        lang: setup.lang,
        frontend: Some(policy.frontend),
        threshold: Some(policy.threshold),
        nonint_seen: setup.nonint_seen,
    };
    let served = serve_layers(
        alloc,
        link,
        &mut NoTerminal,
        &mut ReadAhead::new(alloc),
        &mut NoTerminal,
        files,
        layers,
        config,
        templates,
        &asking_so,
        0,
    );
    served.end
}

// Loads the template into the layers, and answers how a session asks that began over them before.
fn begin(
    alloc: Global,
    files: &mut MemFiles,
    layers: &mut Vec<Box<dyn Layer>>,
    config: &Plan,
    templates: &Plan,
    setup: &SessionSetup<'_>,
) -> Mem<AskPolicy>
    requires config { IsOver (shape config.now) (length layers.old.items) }
    requires templates { IsOver (shape templates.now) (length layers.old.items) }
    requires disjoint { are_disjoint (shape config.now) (shape templates.now) ≡ true }
    ensures { BeginsOver
        (session_by setup.now (shape config.now) (shape templates.now) (resources_of (each state layers.old.items) (files_of files.old) no_terminal nowhere))
        result (each state layers.new.items) (files_of files.new) }
{
    let mut store = Store::new(alloc, std::mem::replace(layers, Vec::new(alloc)));
    let questions = Questions::new(alloc, &mut store, config, templates, setup.lang);
    let mut desk = SessionQuestions::new(questions, setup.owner);
    let begun = begin_at(alloc, files, &mut desk, setup);
    *layers = desk.into_layers(alloc);
    begun
}

// The same at a desk.
fn begin_at(
    alloc: Global,
    files: &mut MemFiles,
    desk: &mut SessionQuestions<'_>,
    setup: &SessionSetup<'_>,
) -> Mem<AskPolicy>
    ensures begins { let policy = policy_by setup.now.frontend setup.now.threshold setup.now.nonint_seen
        (each (λ b. (⟦<dyn Layer as Layer>⟧ b.vtable).state b.value) desk.old.questions.store.now.layers.items) desk.old.questions.context in Begins
        (session_at_desk (λ b. (⟦<dyn Layer as Layer>⟧ b.vtable).state b.value) desk.old (files_of files.old) no_terminal nowhere policy nothing_asked)
        (session_at_desk (λ b. (⟦<dyn Layer as Layer>⟧ b.vtable).state b.value) desk.new (files_of files.new) no_terminal nowhere policy nothing_asked) result }
    ensures borrows { desk.new.questions.store.ghost_name ≡ desk.old.questions.store.ghost_name }
{
    let Ok(policy) = ask_policy(alloc, &desk.questions, setup) else {
        return Err(OutOfMemory);
    };
    let Ok(_) = load_template(alloc, files, desk) else {
        return Err(OutOfMemory);
    };
    Ok(policy)
}

// Loads the template at a desk.
fn load_template(
    alloc: Global,
    files: &mut MemFiles,
    desk: &mut SessionQuestions<'_>,
) -> Mem<FileEnd>
    ensures loads { (terminal : ScreenState) (err : LinkState) (policy : AskPolicyOf) (asking : Asking) → Loads template_path
        (session_at_desk (λ b. (⟦<dyn Layer as Layer>⟧ b.vtable).state b.value) desk.old (files_of files.old) terminal err policy asking)
        (session_at_desk (λ b. (⟦<dyn Layer as Layer>⟧ b.vtable).state b.value) desk.new (files_of files.new) terminal err policy asking) result }
    ensures borrows { desk.new.questions.store.ghost_name ≡ desk.old.questions.store.ghost_name }
{
    let Ok(path) = Text::from_bytes(alloc, TEMPLATE_PATH) else {
        return Err(OutOfMemory);
    };
    load_from(alloc, files, desk, &path)
}

// Loads the templates of the file at the path at a desk.
fn load_from(
    alloc: Global,
    files: &mut MemFiles,
    desk: &mut SessionQuestions<'_>,
    path: &Text,
) -> Mem<FileEnd>
    ensures loads { (terminal : ScreenState) (err : LinkState) (policy : AskPolicyOf) (asking : Asking) → Loads path.now
        (session_at_desk (λ b. (⟦<dyn Layer as Layer>⟧ b.vtable).state b.value) desk.old (files_of files.old) terminal err policy asking)
        (session_at_desk (λ b. (⟦<dyn Layer as Layer>⟧ b.vtable).state b.value) desk.new (files_of files.new) terminal err policy asking) result }
    ensures borrows { desk.new.questions.store.ghost_name ≡ desk.old.questions.store.ghost_name }
{
    match find_templates(alloc, files, path) {
        Ok(found) => desk.take_templates(&found),
        Err(_) => Err(OutOfMemory),
    }
}

// The text of the five numbers, of these layers.
fn numbers_text(
    alloc: Global,
    count: u32,
    talk: &List<Piece>,
    layers: &mut Vec<Box<dyn Layer>>,
    config: &Plan,
) -> Mem<Text>
    requires { IsOver (shape config.now) (length layers.old.items) }
    ensures text { IfOk result (λ text. text ≡ report count talk.now (each state layers.old.items) (shape config.now)) }
    ensures layers { layers.new.items ≡ layers.old.items }
{
    let store = Store::new(alloc, std::mem::replace(layers, Vec::new(alloc)));
    let text = report_text(alloc, count, talk.as_slice(), &store, config);
    *layers = store.layers;
    text
}
