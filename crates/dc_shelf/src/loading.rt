// The layers of a run loaded, one after another.
ghost use Rattle.std.specs.Prelude.{◌≡◌, ◌<◌, map as each, length, take, drop, slice_get, Some};
ghost use Rattle.dc_layer.specs.State.{LayerState, blank, set_up};
ghost use Rattle.dc_shelf.specs.Shelves.{LoadAnswer, all_set_up, sources_of, told, LoadsAll, LoadsTold, IsLoadedAt};

use dc_conf::spec::{LayerSort, LayerSpec};
use dc_layer::Layer;
use dc_outside::{Files, Link};
use dc_save::{LoadError, Loaded, PipeError, PipeLoaded, load, load_pipe};
use std::alloc::Global;

/// Why a layer wasn't loaded.
#[derive(Drop)]
pub enum SourceError {
    /// One that is kept in files.
    Files(LoadError),
    /// One that comes through a pipe.
    Pipe(PipeError),
}

/// Loads each layer, which was set up for its database, in order: one that comes through a pipe from the link, and each other from the files.
pub fn load_all<F: Files, L: Link>(
    alloc: Global,
    files: &mut F,
    link: &mut L,
    specs: &[LayerSpec],
    layers: &mut [Box<dyn Layer>],
) -> Result<(), SourceError>
    requires { each state layers.old ≡ all_set_up specs.now }
    ensures { LoadsAll specs.now (each state layers.old) (each state layers.new)
        (sources_of (F.files files.old) (L.link link.old)) (sources_of (F.files files.new) (L.link link.new)) result }
{
    load_from(alloc, files, link, specs, layers, 0)
}

// The same of the layers from a place on.
fn load_from<F: Files, L: Link>(
    alloc: Global,
    files: &mut F,
    link: &mut L,
    specs: &[LayerSpec],
    layers: &mut [Box<dyn Layer>],
    place: usize,
) -> Result<(), SourceError>
    requires same { length layers.old ≡ length specs.now }
    requires set { drop place (each state layers.old) ≡ all_set_up (drop place specs.now) }
    ensures loads { LoadsAll (drop place specs.now) (drop place (each state layers.old)) (drop place (each state layers.new))
        (sources_of (F.files files.old) (L.link link.old)) (sources_of (F.files files.new) (L.link link.new)) result }
    ensures kept { take place (each state layers.new) ≡ take place (each state layers.old) }
{
    if place >= specs.len() {
        return Ok(());
    }
    let spec = &specs[place];
    match load_at(alloc, files, link, spec, layers, place) {
        Ok(()) => load_from(alloc, files, link, specs, layers, place + 1),
        Err(error) => Err(error),
    }
}

// Loads the layer at a place.
fn load_at<F: Files, L: Link>(
    alloc: Global,
    files: &mut F,
    link: &mut L,
    spec: &LayerSpec,
    layers: &mut [Box<dyn Layer>],
    place: usize,
) -> Result<(), SourceError>
    requires within { place < length layers.old }
    requires set { (layer : LayerState) → slice_get (each state layers.old) place ≡ Some layer → layer ≡ set_up (blank spec.now.sort) spec.now }
    ensures { IsLoadedAt spec.now place (each state layers.old) (each state layers.new)
        (sources_of (F.files files.old) (L.link link.old)) (sources_of (F.files files.new) (L.link link.new)) result }
{
    let layer = &mut layers[place];
    load_one(alloc, files, link, spec, layer)
}

// Loads one layer, from what its sort says.
fn load_one<F: Files, L: Link>(
    alloc: Global,
    files: &mut F,
    link: &mut L,
    spec: &LayerSpec,
    layer: &mut Box<dyn Layer>,
) -> Result<(), SourceError>
    requires { state layer.old ≡ set_up (blank spec.now.sort) spec.now }
    ensures { LoadsTold spec.now (state layer.old) (state layer.new)
        (sources_of (F.files files.old) (L.link link.old)) (sources_of (F.files files.new) (L.link link.new)) result }
{
    match spec.sort {
        LayerSort::Pipe => of_pipe(load_pipe(alloc, link, spec, layer)),
        LayerSort::File | LayerSort::Tree | LayerSort::Pack => {
            of_files(load(alloc, files, spec, layer))
        }
    }
}

// What a load from the files answered.
fn of_files(answer: Result<Loaded, LoadError>) -> Result<(), SourceError>
    ensures { result ≡ told (LoadAnswer.OfFiles answer) }
{
    match answer {
        Ok(_) => Ok(()),
        Err(error) => Err(SourceError::Files(error)),
    }
}

// What a load from the link answered.
fn of_pipe(answer: Result<PipeLoaded, PipeError>) -> Result<(), SourceError>
    ensures { result ≡ told (LoadAnswer.OfPipe answer) }
{
    match answer {
        Ok(_) => Ok(()),
        Err(error) => Err(SourceError::Pipe(error)),
    }
}
