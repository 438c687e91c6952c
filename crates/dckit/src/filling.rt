// The shelf of a run, filled with blank layers.
ghost use Rattle.std.specs.Prelude.{◌≡◌, IfOk};
ghost use Rattle.dc_conf.specs.declared.spec.LayerSort.TheVariants.{File as OneFile, Tree, Pack, Pipe};
ghost use Rattle.dc_outside.specs.Programs.{IsIdle};
ghost use Rattle.dc_layer.specs.State.{blank};
ghost use Rattle.dc_run.specs.Headline.{IsProgramRun};
ghost use Rattle.dc_run.specs.World.{links_of, world_before};

use dc_dirs::{DirTreeLayer, PackageDirLayer};
use dc_layer::{FileLayer, Layer, PipeLayer};
use dc_outside::{Child, Files, Link};
use dc_run::{Settings, Shelf, run_words};
use dc_text::{List, Mem, Text};
use std::alloc::Global;

// One more blank layer of each sort that is kept in files on the shelf.
macro_rules! fill {
    ($shelf:ident, $alloc:expr) => {{
        let (file, tree, pack) = blank_boxes($alloc)?;
        $shelf.take_each(file, tree, pack)?;
    }};
}

// A blank layer of each sort that is kept in files.
fn blank_boxes(alloc: Global) -> Mem<(Box<FileLayer>, Box<DirTreeLayer>, Box<PackageDirLayer>)>
    ensures file { IfOk result (λ boxes. ⟦<FileLayer as Layer>⟧.state boxes.0.value ≡ blank OneFile) }
    ensures tree { IfOk result (λ boxes. ⟦<DirTreeLayer as Layer>⟧.state boxes.1.value ≡ blank Tree) }
    ensures pack { IfOk result (λ boxes. ⟦<PackageDirLayer as Layer>⟧.state boxes.2.value ≡ blank Pack) }
{
    let file = Box::new(alloc, FileLayer::blank(alloc))?;
    let tree = Box::new(alloc, DirTreeLayer::blank(alloc))?;
    let pack = Box::new(alloc, PackageDirLayer::blank(alloc))?;
    Ok((file, tree, pack))
}

// A blank layer for what comes through a pipe.
fn blank_pipe(alloc: Global) -> Mem<Box<PipeLayer>>
    ensures { IfOk result (λ pipe. ⟦<PipeLayer as Layer>⟧.state pipe.value ≡ blank Pipe) }
{
    Ok(Box::new(alloc, PipeLayer::blank(alloc))?)
}

/// Runs the words over a shelf of blank layers: sixteen of each sort that is kept in files and one for a pipe, as many as a configuration may have
/// databases of it. It answers the exit status. What made a box of any layer could break what is said of it, so that no function hands one out.
pub fn run_over<L: Link, E: Link, C: Child, F: Files>(
    alloc: Global,
    words: &List<Text>,
    settings: &Settings,
    io: &mut L,
    err: &mut E,
    child: &mut C,
    files: &mut F,
) -> Mem<u8>
    requires { IsIdle (C.link child.old).program.life }
    ensures { IfOk result (λ status. IsProgramRun words.now settings.now
        (world_before (L.link io.old) (C.link child.old) (E.link err.old) (F.files files.old))
        (links_of (L.link io.new) (C.link child.new)) (E.link err.new) (F.files files.new) status) }
{
    let mut shelf = Shelf::empty(alloc);
    shelf.take_pipe(blank_pipe(alloc)?)?;
    fill!(shelf, alloc);
    fill!(shelf, alloc);
    fill!(shelf, alloc);
    fill!(shelf, alloc);
    fill!(shelf, alloc);
    fill!(shelf, alloc);
    fill!(shelf, alloc);
    fill!(shelf, alloc);
    fill!(shelf, alloc);
    fill!(shelf, alloc);
    fill!(shelf, alloc);
    fill!(shelf, alloc);
    fill!(shelf, alloc);
    fill!(shelf, alloc);
    fill!(shelf, alloc);
    fill!(shelf, alloc);
    let outcome = run_words(alloc, words, settings, io, err, child, files, &mut shelf);
    // the program ends here, and what its databases hold isn't given back entry by entry
    std::mem::forget(shelf);
    Ok(outcome.status)
}
