// Template files loaded one after another.
ghost use Rattle.std.specs.Prelude.{◌≡◌, ◌||◌, [], is_some, length, map as each, true};
ghost use Rattle.dc_conf.specs.Plans.{IsOver, are_disjoint};
ghost use Rattle.dc_conf.specs.Trees.{shape};
ghost use Rattle.dc_session.specs.Serving.{resources_of};
ghost use Rattle.dc_session.specs.SessionState.{LinkState, ScreenState};
ghost use Rattle.dc_session.specs.declared.asking.Asking.{Asking};
ghost use Rattle.dc_session.specs.declared.policy.AskPolicy.{AskPolicy};
ghost use Rattle.dc_run.specs.Inside.{end_text, is_unread, status_by, loading_over, LoadsOne, LoadsFiles, HasLoadedOver};

use crate::outcome::{ToolAnswer, ToolEnd};
use crate::telling::{tell_file, tell_text};
use dc_conf::Plan;
use dc_layer::Layer;
use dc_outside::{Files, Link};
use dc_question::Questions;
use dc_session::{FileEnd, SessionQuestions, find_templates};
use dc_store::Store;
use dc_text::{List, Mem, Name, OutOfMemory, Text};
use std::alloc::Global;
use std::marker::PhantomData;

/// What template files are loaded into.
trait TakesTemplates {
    ghost use Rattle.std.specs.Prelude.{◌≡◌, []};
    ghost use Rattle.dc_session.specs.SessionState.{LinkState, SessionState, ScreenState};
    ghost use Rattle.dc_store.specs.Plans.{stored};
    ghost use Rattle.dc_session.specs.FileLoading.{Loads};
    ghost use Rattle.dc_session.specs.declared.asking.Asking.{Asking};
    ghost use Rattle.dc_session.specs.declared.policy.AskPolicy.{AskPolicy};

    /// The state that it works on, of a session that asks so, which templates don't look at.
    ghost state_at: { Self → ScreenState → LinkState → AskPolicy → Asking → SessionState };

    ghost Kept: { Type 0 };

    /// The names of the references that it holds.
    ghost kept: { Self → Kept };

    /// Loads the templates of the file at the path for the owner of the state (debconf-loadtemplate(1)): all of them, or none.
    fn load_file(&mut self, path: &Text) -> Mem<FileEnd>
        ensures loads { (terminal : ScreenState) (err : LinkState) (policy : AskPolicy) (asking : Asking)
            → Loads path.now (state_at self.old terminal err policy asking) (state_at self.new terminal err policy asking) result }
        ensures kept { kept self.new ≡ kept self.old };

    /// Takes what the layers told.
    fn take_told(&mut self) -> Text
        ensures told { (terminal : ScreenState) (err : LinkState) (policy : AskPolicy) (asking : Asking)
            → result ≡ (state_at self.old terminal err policy asking).store.told }
        ensures left { (terminal : ScreenState) (err : LinkState) (policy : AskPolicy) (asking : Asking)
            → state_at self.new terminal err policy asking ≡ record (state_at self.old terminal err policy asking) {
              store = stored (state_at self.old terminal err policy asking).store.layers [];
            } }
        ensures kept { kept self.new ≡ kept self.old };
}

/// A desk, and the files in which it looks for templates.
#[derive(Drop)]
struct Loader<'s, 'f, F: Files> {
    alloc: Global,
    desk: SessionQuestions<'s>,
    files: &'f mut F,
    of: PhantomData<Box<dyn Layer>>,
}

impl<'s, 'f, F: Files> TakesTemplates for Loader<'s, 'f, F> {
    ghost use Rattle.std.specs.Borrow.{GName};
    ghost use Rattle.dc_session.specs.SessionState.{session_at_desk};

    ghost state_at = { λ s terminal err policy asking. session_at_desk (λ b. (Layer-box b).state b.value) s.desk (F.files s.files.now) terminal err policy asking };

    ghost Kept = { GName × GName };

    ghost kept = { λ s. (s.desk.questions.store.ghost_name, s.files.ghost_name) };

    fn load_file(&mut self, path: &Text) -> Mem<FileEnd> {
        match find_templates(self.alloc, self.files, path) {
            Ok(found) => self.desk.take_templates(&found),
            Err(_) => Err(OutOfMemory),
        }
    }

    fn take_told(&mut self) -> Text {
        let desk = &mut self.desk;
        told_of(&mut desk.questions)
    }
}

// What the layers told, which is forgotten then.
fn told_of(questions: &mut Questions<'_>) -> Text
    ensures told { result ≡ questions.old.store.now.told }
    ensures forgotten { questions.new.store.now.told ≡ [] }
    ensures layers { questions.new.store.now.layers.items ≡ questions.old.store.now.layers.items }
    ensures context { questions.new.context ≡ questions.old.context }
    ensures borrows { questions.new.store.ghost_name ≡ questions.old.store.ghost_name }
{
    let store = &mut *questions.store;
    std::mem::replace(&mut store.told, Text::new(questions.alloc))
}

/// Loads the template files at the paths, in order, into these layers, by the plans of questions and of templates, for a user of the
/// language and for an owner, whatever a session asks (debconf-loadtemplate(1)). Why a file is refused, where it is, is told on `err`, and then the status is 1;
/// what the layers tell of a file is told behind it. The layers are given back as they are then, in their order. The code of the last reply so far is handed in and back.
pub fn load_template_files<E: Link, F: Files>(
    alloc: Global,
    err: &mut E,
    files: &mut F,
    layers: &mut Vec<Box<dyn Layer>>,
    config: &Plan,
    templates: &Plan,
    lang: &Text,
    owner: &Name,
    paths: &List<Text>,
    last_code: u8,
) -> ToolAnswer
    requires config { IsOver (shape config.now) (length layers.old.items) }
    requires templates { IsOver (shape templates.now) (length layers.old.items) }
    requires disjoint { are_disjoint (shape config.now) (shape templates.now) ≡ true }
    ensures { (terminal : ScreenState) (untold : LinkState) (policy : AskPolicy) (asking : Asking) → HasLoadedOver
        (loading_over (resources_of (each state layers.old.items) (F.files files.old) terminal untold)
        (record { config = shape config.now; templates = shape templates.now; lang = lang.now }) owner.now policy asking)
        paths.now (E.link err.old) (E.link err.new) last_code result (each state layers.new.items) (F.files files.new) }
{
    let mut store = Store::new(alloc, std::mem::replace(layers, Vec::new(alloc)));
    let questions = Questions::new(alloc, &mut store, config, templates, lang);
    let mut loader = Loader {
        alloc,
        desk: SessionQuestions::new(questions, owner),
        files,
        of: PhantomData,
    };
    let loaded = load_files(&mut loader, err, paths.as_slice());
    let Loader {
        alloc: _,
        desk,
        files: _kept,
        of: _,
    } = loader;
    *layers = desk.into_layers(alloc);
    ToolAnswer {
        ended: loaded.ended,
        is_started: false,
        last_code,
        status: status_of_files(loaded.refused),
    }
}

/// What some template files came to: how the tool ended at them, and whether one of them was refused.
#[derive(Drop)]
pub struct FilesLoaded {
    pub ended: ToolEnd,
    pub refused: bool,
}

fn load_files<S: TakesTemplates, E: Link>(
    session: &mut S,
    err: &mut E,
    paths: &[Text],
) -> FilesLoaded
    ensures loads { (terminal : ScreenState) (untold : LinkState) (policy : AskPolicy) (asking : Asking) → LoadsFiles
        (S.state_at session.old terminal untold policy asking)
        paths.now (E.link err.old) (E.link err.new) result (S.state_at session.new terminal untold policy asking) }
    ensures kept { S.kept session.new ≡ S.kept session.old }
{
    let mut refused = false;
    let mut rest = paths;
    while let [path, later @ ..] = rest {
        match load_one(session, err, path) {
            Err(ended) => return FilesLoaded { ended, refused },
            Ok(is_refused) => refused = either(refused, is_refused),
        }
        rest = later;
    }
    FilesLoaded {
        ended: ToolEnd::Done,
        refused,
    }
}

fn either(one: bool, other: bool) -> bool
    ensures { result ≡ (one || other) }
{
    one || other
}

// Loads one file, tells what is to be told of it, and answers whether it was refused, or ends the tool.
fn load_one<S: TakesTemplates, E: Link>(
    session: &mut S,
    err: &mut E,
    path: &Text,
) -> Result<bool, ToolEnd>
    ensures loads { (terminal : ScreenState) (untold : LinkState) (policy : AskPolicy) (asking : Asking) → LoadsOne
        (S.state_at session.old terminal untold policy asking)
        path.now (E.link err.old) (E.link err.new) result (S.state_at session.new terminal untold policy asking) }
    ensures kept { S.kept session.new ≡ S.kept session.old }
{
    let kept = match path.copy() {
        Ok(kept) => kept,
        Err(_) => return Err(ToolEnd::OutOfMemory),
    };
    let ended = match session.load_file(path) {
        Ok(ended) => ended,
        Err(_) => return Err(ToolEnd::OutOfMemory),
    };
    if is_unreadable(&ended) {
        return Err(ToolEnd::FilesFault { path: kept });
    }
    let told = session.take_told();
    tell_file(err, path, &ended);
    tell_text(err, &told);
    Ok(is_refused(&ended))
}

fn is_unreadable(ended: &FileEnd) -> bool
    ensures { result ≡ is_unread ended.now }
{
    matches!(ended, FileEnd::Unreadable)
}

fn is_refused(ended: &FileEnd) -> bool
    ensures { result ≡ is_some (end_text [] ended.now) }
{
    match ended {
        FileEnd::Loaded | FileEnd::Unreadable => false,
        FileEnd::Missing | FileEnd::Faulty { line: _ } | FileEnd::Refused(_) => true,
    }
}

fn status_of_files(refused: bool) -> u8
    ensures { result ≡ status_by refused }
{
    if refused { 1 } else { 0 }
}
