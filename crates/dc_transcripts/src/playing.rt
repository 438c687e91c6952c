// A run over a shelf of blank layers, which may be tired.
ghost use Rattle.std.specs.Prelude.{◌≡◌, ◌≤◌, [], length, IfOk, map as each};
ghost use Rattle.dc_conf.specs.declared.spec.LayerSort.TheVariants.{File as OneFile, Tree, Pack, Pipe};
ghost use Rattle.dc_layer.specs.State.{blank};
ghost use Rattle.dc_outside.specs.Programs.{IsIdle};
ghost use Rattle.dc_run.specs.World.{files_in, packs_in, pipes_in, trees_in};
ghost use Rattle.dc_shelf.specs.Shelves.{AreBlank};

use dc_dirs::{DirTreeLayer, PackageDirLayer};
use dc_layer::{Layer, PipeLayer, TiredLayer};
use dc_outside::{MemChild, MemFiles, MemLink};
use dc_run::{Outcome, Settings, Shelf, run_words};
use dc_text::{List, Mem, Name, OutOfMemory, Text};
use std::alloc::Global;

// One more blank layer of each sort that is kept in files on the shelf.
macro_rules! fill {
    ($shelf:ident, $alloc:expr, $changes:expr) => {{
        let (file, tree, pack) = blank_boxes($alloc, $changes)?;
        $shelf.take_each(file, tree, pack)?;
    }};
}

/// What a run is to do.
#[derive(Clone, Copy)]
pub struct Task<'t> {
    pub words: &'t List<Text>,
    pub settings: &'t Settings,
    /// How many changes each layer in a file takes before it finds no memory.
    pub changes: u64,
    /// The question of which it is told what the databases hold at the end.
    pub held: Option<&'t Name>,
}

/// How a run ended, and what its databases hold then.
#[derive(Drop)]
pub struct Played {
    pub outcome: Outcome,
    pub held: Text,
}

// A blank layer of each sort that is kept in files, of which the one in a file takes so many changes.
fn blank_boxes(
    alloc: Global,
    changes: u64,
) -> Mem<(Box<TiredLayer>, Box<DirTreeLayer>, Box<PackageDirLayer>)>
    ensures file { IfOk result (λ boxes. ⟦<TiredLayer as Layer>⟧.state boxes.0.value ≡ blank OneFile) }
    ensures tree { IfOk result (λ boxes. ⟦<DirTreeLayer as Layer>⟧.state boxes.1.value ≡ blank Tree) }
    ensures pack { IfOk result (λ boxes. ⟦<PackageDirLayer as Layer>⟧.state boxes.2.value ≡ blank Pack) }
{
    let file = Box::new(alloc, TiredLayer::blank(alloc, changes))?;
    let tree = Box::new(alloc, DirTreeLayer::blank(alloc))?;
    let pack = Box::new(alloc, PackageDirLayer::blank(alloc))?;
    Ok((file, tree, pack))
}

// A blank layer for what comes through a pipe.
fn blank_pipe(alloc: Global) -> Mem<Box<PipeLayer>>
    ensures { IfOk result (λ pipe. ⟦<PipeLayer as Layer>⟧.state pipe.value ≡ blank Pipe) }
{
    Ok(Box::new(alloc, PipeLayer::blank(alloc))?)
}

/// Runs the words over blank layers: sixteen of each sort that is kept in files and one for a pipe, as many as a configuration may have.
pub fn play(
    alloc: Global,
    task: Task<'_>,
    io: &mut MemLink,
    err: &mut MemLink,
    child: &mut MemChild,
    files: &mut MemFiles,
) -> Mem<Played>
    requires { IsIdle child.old.program.life }
{
    let mut shelf = Shelf::empty(alloc);
    shelf.take_pipe(blank_pipe(alloc)?)?;
    fill!(shelf, alloc, task.changes);
    fill!(shelf, alloc, task.changes);
    fill!(shelf, alloc, task.changes);
    fill!(shelf, alloc, task.changes);
    fill!(shelf, alloc, task.changes);
    fill!(shelf, alloc, task.changes);
    fill!(shelf, alloc, task.changes);
    fill!(shelf, alloc, task.changes);
    fill!(shelf, alloc, task.changes);
    fill!(shelf, alloc, task.changes);
    fill!(shelf, alloc, task.changes);
    fill!(shelf, alloc, task.changes);
    fill!(shelf, alloc, task.changes);
    fill!(shelf, alloc, task.changes);
    fill!(shelf, alloc, task.changes);
    fill!(shelf, alloc, task.changes);
    play_over(alloc, task, io, err, child, files, &mut shelf)
}

// Runs the words over the layers of the shelf.
fn play_over(
    alloc: Global,
    task: Task<'_>,
    io: &mut MemLink,
    err: &mut MemLink,
    child: &mut MemChild,
    files: &mut MemFiles,
    shelf: &mut Shelf,
) -> Mem<Played>
    requires files { AreBlank OneFile (files_in state shelf.old) }
    requires trees { AreBlank Tree (trees_in state shelf.old) }
    requires packs { AreBlank Pack (packs_in state shelf.old) }
    requires pipes { AreBlank Pipe (pipes_in state shelf.old) }
    requires some_files { 16 ≤ length shelf.old.files.items }
    requires some_trees { 16 ≤ length shelf.old.trees.items }
    requires some_packs { 16 ≤ length shelf.old.packs.items }
    requires some_pipes { 1 ≤ length shelf.old.pipes.items }
    requires used { shelf.old.used.items ≡ [] }
    requires idle { IsIdle child.old.program.life }
{
    let outcome = run_words(
        alloc,
        task.words,
        task.settings,
        io,
        err,
        child,
        files,
        shelf,
    );
    let held = held_values(alloc, &shelf.used, task.held).ok_or(OutOfMemory)?;
    Ok(Played { outcome, held })
}

// The value of the question in each database that holds one, a line each.
fn held_values(alloc: Global, used: &[Box<dyn Layer>], name: Option<&Name>) -> Option<Text> {
    let mut told = Text::new(alloc);
    let Some(name) = name else {
        return Some(told);
    };
    for (place, layer) in used.iter().enumerate() {
        if let Some(item) = layer.item(name)
            && let Some(value) = item.field(b"value")
        {
            let head = format!(in alloc; "- database {place} holds ").ok()?;
            told.append(head.as_bytes()).ok()?;
            told.append(value).ok()?;
            told.push(b'\n').ok()?;
        }
    }
    Some(told)
}
