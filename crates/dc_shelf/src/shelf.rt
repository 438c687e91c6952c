// The shelf, and how its boxes are set up.
ghost use Rattle.std.specs.Prelude.{◌≡◌, ◌≤◌, ◌<◌, ◌+◌, ◌^◌, ◌++◌, ◌∷◌, [], length, true, IfErr, OnOk, map as each};
ghost use Rattle.dc_layer.specs.State.{blank, set_up as set_up_with};
ghost use Rattle.dc_shelf.specs.Shelves.{AreBlank, all_set_up, has_patterns, all_patterns, count_of, is_sort, of_sort, one_if, AreRefusedFor, IsRefusedAt, IsRefusedFrom};

use dc_conf::spec::{LayerSort, LayerSpec};
use dc_layer::{Layer, PatternError};
use dc_text::{Copied, Mem};
use std::alloc::Global;

/// The boxes of a run: blank ones of each sort, and those that are used, in the order of their databases.
#[derive(Drop)]
pub struct Shelf {
    pub files: Vec<Box<dyn Layer>>,
    pub trees: Vec<Box<dyn Layer>>,
    pub packs: Vec<Box<dyn Layer>>,
    pub pipes: Vec<Box<dyn Layer>>,
    pub used: Vec<Box<dyn Layer>>,
}

/// Why a database isn't set up: its place, and what its patterns are refused as.
#[derive(Clone, Copy, Debug, PartialEq, Eq)]
pub struct NotSetUp {
    pub place: usize,
    pub error: PatternError,
}

impl Shelf {
    ghost use Rattle.dc_conf.specs.declared.spec.LayerSort.TheVariants.{File, Tree, Pack, Pipe};

    /// A shelf without boxes.
    pub fn empty(alloc: Global) -> Shelf
        ensures files { result.files.items ≡ [] }
        ensures trees { result.trees.items ≡ [] }
        ensures packs { result.packs.items ≡ [] }
        ensures pipes { result.pipes.items ≡ [] }
        ensures used { result.used.items ≡ [] }
    {
        Shelf {
            files: Vec::new(alloc),
            trees: Vec::new(alloc),
            packs: Vec::new(alloc),
            pipes: Vec::new(alloc),
            used: Vec::new(alloc),
        }
    }

    #[tactic(auto, using(crate::proofs::ShelfLemmas::blank_behind))]
    /// Takes one more blank layer of each sort that is kept in files. Where memory fails it may have taken the first of them.
    pub fn take_each(
        &mut self,
        file: Box<dyn Layer>,
        tree: Box<dyn Layer>,
        pack: Box<dyn Layer>,
    ) -> Mem<()>
        requires files { AreBlank File (each state self.old.files.items) }
        requires trees { AreBlank Tree (each state self.old.trees.items) }
        requires packs { AreBlank Pack (each state self.old.packs.items) }
        requires file { state file ≡ blank File }
        requires tree { state tree ≡ blank Tree }
        requires pack { state pack ≡ blank Pack }
        ensures files { OnOk result (AreBlank File (each state self.new.files.items)) }
        ensures trees { OnOk result (AreBlank Tree (each state self.new.trees.items)) }
        ensures packs { OnOk result (AreBlank Pack (each state self.new.packs.items)) }
        ensures count_files { OnOk result (length self.new.files.items ≡ length self.old.files.items + 1) }
        ensures count_trees { OnOk result (length self.new.trees.items ≡ length self.old.trees.items + 1) }
        ensures count_packs { OnOk result (length self.new.packs.items ≡ length self.old.packs.items + 1) }
        ensures pipes { self.new.pipes.items ≡ self.old.pipes.items }
        ensures used { self.new.used.items ≡ self.old.used.items }
    {
        put_behind(&mut self.files, file)?;
        put_behind(&mut self.trees, tree)?;
        put_behind(&mut self.packs, pack)
    }

    #[tactic(auto, using(crate::proofs::ShelfLemmas::blank_behind))]
    /// Takes one more blank layer for what comes through a pipe.
    pub fn take_pipe(&mut self, pipe: Box<dyn Layer>) -> Mem<()>
        requires pipes { AreBlank Pipe (each state self.old.pipes.items) }
        requires pipe { state pipe ≡ blank Pipe }
        ensures pipes { OnOk result (AreBlank Pipe (each state self.new.pipes.items)) }
        ensures count { OnOk result (length self.new.pipes.items ≡ length self.old.pipes.items + 1) }
        ensures files { self.new.files.items ≡ self.old.files.items }
        ensures trees { self.new.trees.items ≡ self.old.trees.items }
        ensures packs { self.new.packs.items ≡ self.old.packs.items }
        ensures used { self.new.used.items ≡ self.old.used.items }
    {
        put_behind(&mut self.pipes, pipe)
    }

    // A blank box of the sort, taken from the others.
    fn take(&mut self, sort: LayerSort) -> Box<dyn Layer>
        requires files { AreBlank File (each state self.old.files.items) }
        requires trees { AreBlank Tree (each state self.old.trees.items) }
        requires packs { AreBlank Pack (each state self.old.packs.items) }
        requires pipes { AreBlank Pipe (each state self.old.pipes.items) }
        requires some { 0 < of_sort sort (length self.old.files.items) (length self.old.trees.items) (length self.old.packs.items)
            (length self.old.pipes.items) }
        ensures taken { state result ≡ blank sort }
        ensures files { AreBlank File (each state self.new.files.items) }
        ensures trees { AreBlank Tree (each state self.new.trees.items) }
        ensures packs { AreBlank Pack (each state self.new.packs.items) }
        ensures pipes { AreBlank Pipe (each state self.new.pipes.items) }
        ensures count_files { length self.old.files.items ≡ length self.new.files.items + one_if (is_sort File sort) }
        ensures count_trees { length self.old.trees.items ≡ length self.new.trees.items + one_if (is_sort Tree sort) }
        ensures count_packs { length self.old.packs.items ≡ length self.new.packs.items + one_if (is_sort Pack sort) }
        ensures count_pipes { length self.old.pipes.items ≡ length self.new.pipes.items + one_if (is_sort Pipe sort) }
        ensures used { self.new.used.items ≡ self.old.used.items }
    {
        match sort {
            LayerSort::File => take_last(&mut self.files),
            LayerSort::Tree => take_last(&mut self.trees),
            LayerSort::Pack => take_last(&mut self.packs),
            LayerSort::Pipe => take_last(&mut self.pipes),
        }
    }
}

// One more box behind the others.
#[tactic(auto, using(crate::proofs::ShelfLemmas::one_more))]
fn put_behind(boxes: &mut Vec<Box<dyn Layer>>, layer: Box<dyn Layer>) -> Mem<()>
    ensures layers { OnOk result (each state boxes.new.items ≡ each state boxes.old.items ++ state layer ∷ []) }
    ensures count { OnOk result (length boxes.new.items ≡ length boxes.old.items + 1) }
{
    boxes.push(layer)?;
    Ok(())
}

// The last of these boxes, which are blank.
fn take_last(layers: &mut Vec<Box<dyn Layer>>) -> Box<dyn Layer>
    requires some { 0 < length layers.old.items }
    ensures taken { (sort : LayerSort) → AreBlank sort (each state layers.old.items) → state result ≡ blank sort }
    ensures left { (sort : LayerSort) → AreBlank sort (each state layers.old.items) → AreBlank sort (each state layers.new.items) }
    ensures count { length layers.new.items + 1 ≡ length layers.old.items }
{
    match layers.pop() {
        None => unreachable!(),
        Some(layer) => layer,
    }
}

/// Moves a blank box of the shelf into `used` for each database, in order, and sets it up. The first whose patterns are refused is
/// named.
pub fn set_up_all(shelf: &mut Shelf, specs: &[LayerSpec]) -> Result<(), NotSetUp>
    requires files { AreBlank LayerSort.File (each state shelf.old.files.items) }
    requires trees { AreBlank LayerSort.Tree (each state shelf.old.trees.items) }
    requires packs { AreBlank LayerSort.Pack (each state shelf.old.packs.items) }
    requires pipes { AreBlank LayerSort.Pipe (each state shelf.old.pipes.items) }
    requires some_files { count_of LayerSort.File specs.now ≤ length shelf.old.files.items }
    requires some_trees { count_of LayerSort.Tree specs.now ≤ length shelf.old.trees.items }
    requires some_packs { count_of LayerSort.Pack specs.now ≤ length shelf.old.packs.items }
    requires some_pipes { count_of LayerSort.Pipe specs.now ≤ length shelf.old.pipes.items }
    requires used { shelf.old.used.items ≡ [] }
    ensures ok { OnOk result (each state shelf.new.used.items ≡ all_set_up specs.now) }
    ensures built { OnOk result (all_patterns specs.now ≡ true) }
    ensures refused { IfErr result (λ refused. IsRefusedAt specs.now refused.place refused.error) }
{
    set_up_from(shelf, specs, 0)
}

// The same of the databases from a place on.
fn set_up_from(shelf: &mut Shelf, specs: &[LayerSpec], place: usize) -> Result<(), NotSetUp>
    requires files { AreBlank LayerSort.File (each state shelf.old.files.items) }
    requires trees { AreBlank LayerSort.Tree (each state shelf.old.trees.items) }
    requires packs { AreBlank LayerSort.Pack (each state shelf.old.packs.items) }
    requires pipes { AreBlank LayerSort.Pipe (each state shelf.old.pipes.items) }
    requires some_files { count_of LayerSort.File specs.now ≤ length shelf.old.files.items }
    requires some_trees { count_of LayerSort.Tree specs.now ≤ length shelf.old.trees.items }
    requires some_packs { count_of LayerSort.Pack specs.now ≤ length shelf.old.packs.items }
    requires some_pipes { count_of LayerSort.Pipe specs.now ≤ length shelf.old.pipes.items }
    requires fits { place + length specs.now < 2 ^ 64 }
    ensures ok { OnOk result (each state shelf.new.used.items ≡ each state shelf.old.used.items ++ all_set_up specs.now) }
    ensures built { OnOk result (all_patterns specs.now ≡ true) }
    ensures refused { IfErr result (λ refused. IsRefusedFrom place specs.now refused.place refused.error) }
{
    match specs {
        [] => Ok(()),
        [spec, rest @ ..] => {
            let layer = shelf.take(spec.sort);
            match set_up_into(&mut shelf.used, layer, spec) {
                Ok(()) => set_up_from(shelf, rest, place + 1),
                Err(error) => Err(NotSetUp { place, error }),
            }
        }
    }
}

// Sets the box up and puts it behind the used ones.
fn set_up_into(
    used: &mut Vec<Box<dyn Layer>>,
    layer: Box<dyn Layer>,
    spec: &LayerSpec,
) -> Result<(), PatternError>
    requires blank { state layer ≡ blank spec.now.sort }
    ensures ok { OnOk result (each state used.new.items ≡ each state used.old.items ++ set_up_with (blank spec.now.sort) spec.now ∷ []) }
    ensures built { OnOk result (has_patterns spec.now ≡ true) }
    ensures err { IfErr result (AreRefusedFor spec.now) }
{
    let mut layer = layer;
    match set_up_box(&mut layer, spec) {
        Ok(()) => match put_behind(used, layer) {
            Ok(()) => Ok(()),
            Err(_) => Err(PatternError::OutOfMemory),
        },
        Err(error) => {
            let _ = put_behind(used, layer);
            Err(error)
        }
    }
}

fn set_up_box(layer: &mut Box<dyn Layer>, spec: &LayerSpec) -> Result<(), PatternError>
    requires blank { state layer.old ≡ blank spec.now.sort }
    ensures ok { OnOk result (state layer.new ≡ set_up_with (blank spec.now.sort) spec.now) }
    ensures built { OnOk result (has_patterns spec.now ≡ true) }
    ensures err { IfErr result (AreRefusedFor spec.now) }
{
    match spec.copied() {
        Ok(spec) => layer.set_up(spec),
        Err(_) => Err(PatternError::OutOfMemory),
    }
}
