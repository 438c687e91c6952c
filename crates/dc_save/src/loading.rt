// Loading a layer, and one in one file.
ghost use Rattle.std.specs.Prelude.{◌≡◌, [], false};
ghost use Rattle.std.specs.FinMap as map;
ghost use Rattle.dc_item.specs.Table.{table_of};
ghost use Rattle.dc_layer.specs.State.{blank, set_up, is_pipe};
ghost use Rattle.dc_save.specs.Loading.{LoadsFile, LoadsOneFile, FileCounts, LoadsLayer, LoadsFiles, LoadCounts, Takes, PassesOver, with_loaded, text_in};

use crate::folder_loading::load_folder;
use dc_conf::spec::{LayerSort, LayerSpec};
use dc_item::{RecordError, Records, read_records};
use dc_layer::Layer;
use dc_outside::{Files, FilesError};
use dc_text::{OutOfMemory, Text};
use std::alloc::Global;

/// What became of a layer that was to be loaded.
#[derive(Clone, Copy, Debug, PartialEq, Eq)]
pub enum Loaded {
    Here,
    /// Its file couldn't be read, and a run doesn't need it.
    LeftOut,
}

/// Why a layer wasn't loaded.
#[derive(Drop)]
pub enum LoadError {
    /// The read of the file at the path failed.
    Failed { path: Text },
    /// The file at the path has no reading, and the line is its first bad one, from 1.
    Damaged { path: Text, line: u64 },
    OutOfMemory,
}

impl From<OutOfMemory> for LoadError {
    ghost use Rattle.std.specs.Prelude.{◌≡◌};
    ghost use Rattle.dc_save.specs.declared.loading.LoadError.TheVariants.{OutOfMemory};

    ghost from_gives = { λ _ e. e ≡ OutOfMemory };

    fn from(_: OutOfMemory) -> Self {
        LoadError::OutOfMemory
    }
}

// The text that was found. A file that isn't there is the empty text.
fn bytes_in(found: &Option<Text>) -> &[u8]
    ensures { result.now ≡ text_in found.now }
{
    match found {
        None => b"",
        Some(text) => text.bytes(),
    }
}

// Keeps the text that was found, where the spec asks for that, and else lets it go.
fn keep_found(layer: &mut Box<dyn Layer>, spec: &LayerSpec, found: Option<Text>)
    ensures { state layer.new ≡ with_loaded spec.now (state layer.old) (state layer.old).table found }
{
    match found {
        Some(text) => {
            if spec.backup {
                layer.keep_old(text);
            }
        }
        None => {}
    }
}

// Hands the records to the layer.
pub(crate) fn take_records(layer: &mut Box<dyn Layer>, records: Records)
    requires empty { (state layer.old).table ≡ map.empty }
    requires untouched { (state layer.old).touched ≡ [] }
    ensures { state layer.new ≡ record (state layer.old) { table = table_of records } }
{
    layer.take_all(records)
}

// Takes the records of the text that was found at the path. A text that isn't kept goes once it is read.
fn take_found(
    alloc: Global,
    spec: &LayerSpec,
    layer: &mut Box<dyn Layer>,
    found: Option<Text>,
    path: Text,
) -> Result<Loaded, LoadError>
    requires empty { (state layer.old).table ≡ map.empty }
    requires untouched { (state layer.old).touched ≡ [] }
    ensures { Takes spec.now found path (state layer.old) (state layer.new) result }
{
    let records = match read_records(alloc, bytes_in(&found)) {
        Ok(records) => records,
        Err(RecordError::Bad { line }) => return Err(LoadError::Damaged { path, line }),
        Err(RecordError::OutOfMemory) => return Err(LoadError::OutOfMemory),
    };
    keep_found(layer, spec, found);
    take_records(layer, records);
    Ok(Loaded::Here)
}

// Leaves the layer out, unless a run needs it.
pub(crate) fn pass_over(
    layer: &mut Box<dyn Layer>,
    required: bool,
    path: Text,
) -> Result<Loaded, LoadError>
    ensures { PassesOver required path (state layer.old) (state layer.new) result }
{
    if required {
        return Err(LoadError::Failed { path });
    }
    layer.leave_out();
    Ok(Loaded::LeftOut)
}

// Loads a layer in one file.
fn load_one_file<F: Files>(
    alloc: Global,
    files: &mut F,
    spec: &LayerSpec,
    layer: &mut Box<dyn Layer>,
) -> Result<Loaded, LoadError>
    requires empty { (state layer.old).table ≡ map.empty }
    requires untouched { (state layer.old).touched ≡ [] }
    ensures loads { LoadsFile (F.files files.old).view.disk spec.now (state layer.old) (state layer.new) result }
    ensures files { LoadsOneFile (F.files files.old).view (F.files files.new).view spec.now.place result }
    ensures counts { FileCounts (F.files files.old).view (F.files files.new).view result (F.files files.old).counts (F.files files.new).counts }
{
    let path = spec.place.copy()?;
    match files.read(&spec.place) {
        Ok(found) => take_found(alloc, spec, layer, found, path),
        Err(FilesError::Failed) => pass_over(layer, spec.required, path),
        Err(FilesError::OutOfMemory) => Err(LoadError::OutOfMemory),
    }
}

/// Loads a layer that is kept in files, which was set up with the spec, and with which nothing was done since.
///
/// The records of the text at the place of a layer in one file become its table, and with `backup` the text is kept. A file that
/// isn't there is the empty table. Those of the files in the folder of another layer become its table, where each file holds the
/// records that it is for. Where a call fails, a layer that a run doesn't need is left out.
pub fn load<F: Files>(
    alloc: Global,
    files: &mut F,
    spec: &LayerSpec,
    layer: &mut Box<dyn Layer>,
) -> Result<Loaded, LoadError>
    requires sort { is_pipe spec.now.sort ≡ false }
    requires blank { state layer.old ≡ set_up (blank spec.now.sort) spec.now }
    ensures loads { LoadsLayer (F.files files.old).view.disk spec.now (state layer.old) (state layer.new) result }
    ensures files { LoadsFiles (F.files files.old).view (F.files files.new).view spec.now result }
    ensures counts { LoadCounts spec.now (F.files files.old).view (F.files files.new).view result (F.files files.old).counts (F.files files.new).counts }
{
    match spec.sort {
        LayerSort::File => load_one_file(alloc, files, spec, layer),
        LayerSort::Tree | LayerSort::Pack => load_folder(alloc, files, spec, layer),
        LayerSort::Pipe => unreachable!(),
    }
}
