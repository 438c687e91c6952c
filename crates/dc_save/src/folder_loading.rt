// Loading a layer in a folder.
ghost use Rattle.std.specs.Prelude.{◌≡◌, [], IfOk, OnOk, OnErr, false, find, not};
ghost use Rattle.std.specs.Option.{option_copied};
ghost use Rattle.std.specs.FinMap as map;
ghost use Rattle.dc_text.specs.Maps.{AreDistinct};
ghost use Rattle.dc_item.specs.Table.{names_of};
ghost use Rattle.dc_layer.specs.State.{taken_in};
ghost use Rattle.dc_save.specs.Found.{IsSameButTable};
ghost use Rattle.dc_save.specs.FolderLoading.{belongs as belongs_of, is_front as is_front_of, is_its_file as is_its_file_of, its_files as its_files_of, front_of, path_at as path_at_of, misfit as misfit_of, lacks_one as lacks_one_of, LoadsFolder, LoadsFolderFiles, FolderCounts};
ghost use Rattle.dc_save.specs.FileTurns.{FileTurn, FileTurnTold, FileTurnCounts, FileTurns, TakesText, with_new};

use crate::loading::{LoadError, Loaded, pass_over};
use dc_conf::spec::{LayerSort, LayerSpec};
use dc_item::{Entry, RecordError, read_records};
use dc_layer::Layer;
use dc_layer::folders::{fits_tree, prefix};
use dc_outside::{Files, FilesError};
use dc_text::names::is_name;
use dc_text::{List, Mem, Name, Text, TextMap};
use std::alloc::Global;

/// Loads a layer in a folder, which was set up with the spec and is empty, from its files there, in byte order. The first bad one
/// decides.
pub(crate) fn load_folder<F: Files>(
    alloc: Global,
    files: &mut F,
    spec: &LayerSpec,
    layer: &mut Box<dyn Layer>,
) -> Result<Loaded, LoadError>
    requires empty { (state layer.old).table ≡ map.empty }
    requires untouched { (state layer.old).touched ≡ [] }
    ensures loads { LoadsFolder (F.files files.old).view.disk spec.now (state layer.old) (state layer.new) result }
    ensures files { LoadsFolderFiles (F.files files.old).view (F.files files.new).view spec.now result }
    ensures counts { FolderCounts result (F.files files.old).counts (F.files files.new).counts }
{
    let place = spec.place.copy()?;
    let listed = match files.list(&spec.place) {
        Ok(listed) => listed,
        Err(FilesError::Failed) => return pass_over(layer, spec.required, place),
        Err(FilesError::OutOfMemory) => return Err(LoadError::OutOfMemory),
    };
    let its = its_files(alloc, spec, listed)?;
    match load_files(alloc, files, spec, layer, &its) {
        Ok(()) => Ok(Loaded::Here),
        Err(LoadError::Failed { path }) => pass_over(layer, spec.required, path),
        Err(LoadError::Damaged { path, line }) => Err(LoadError::Damaged { path, line }),
        Err(LoadError::OutOfMemory) => Err(LoadError::OutOfMemory),
    }
}

// The files of the database among those that are listed, in byte order.
fn its_files(alloc: Global, spec: &LayerSpec, listed: List<Text>) -> Mem<TextMap<()>>
    ensures { IfOk result (λ its. map.keys its ≡ its_files_of spec.now listed) }
{
    let mut left = listed;
    let mut its = TextMap::new(alloc);
    while let Some(file) = left.pop() {
        if is_its_file(spec, file.bytes()) {
            its.insert(file, ())?;
        }
    }
    Ok(its)
}

fn is_its_file(spec: &LayerSpec, file: &[u8]) -> bool
    ensures { result ≡ is_its_file_of spec.now file.now }
{
    match file.strip_suffix(spec.extension.bytes()) {
        Some(front) => is_front(spec.sort, spec.extension.bytes(), front),
        None => false,
    }
}

// Whether a file may be called so before its extension.
fn is_front(sort: LayerSort, extension: &[u8], front: &[u8]) -> bool
    ensures { result ≡ is_front_of sort extension.now front.now }
{
    match sort {
        LayerSort::File | LayerSort::Pipe => false,
        LayerSort::Tree => is_name(front) && fits_tree(extension, front),
        LayerSort::Pack => is_name(front) && !front.contains(&b'/'),
    }
}

// Takes in the records of each file, in order, up to the first that isn't answered.
fn load_files<F: Files>(
    alloc: Global,
    files: &mut F,
    spec: &LayerSpec,
    layer: &mut Box<dyn Layer>,
    its: &TextMap<()>,
) -> Result<(), LoadError>
    requires untouched { (state layer.old).touched ≡ [] }
    requires empty { (state layer.old).table ≡ map.empty }
    ensures { FileTurns spec.now (map.keys its.now) (state layer.old) (state layer.new)
        (F.files files.old).view (F.files files.new).view (F.files files.old).counts (F.files files.new).counts result }
{
    for (file, _) in its.iter() {
        match load_file(alloc, files, spec, layer, file) {
            Ok(()) => {}
            Err(error) => return Err(error),
        }
    }
    Ok(())
}

// Reads one file and takes in its records. One that went meanwhile is passed over.
fn load_file<F: Files>(
    alloc: Global,
    files: &mut F,
    spec: &LayerSpec,
    layer: &mut Box<dyn Layer>,
    file: &[u8],
) -> Result<(), LoadError>
    requires untouched { (state layer.old).touched ≡ [] }
    ensures turn { FileTurn (F.files files.old).view.disk spec.now file.now (state layer.old) (state layer.new) result }
    ensures told { FileTurnTold (F.files files.old).view (F.files files.new).view (path_at_of spec.now file.now) result }
    ensures counts { FileTurnCounts result (F.files files.old).counts (F.files files.new).counts }
{
    let path = path_at(alloc, spec, file)?;
    match files.read(&path) {
        Ok(None) => Ok(()),
        Ok(Some(text)) => take_file(alloc, spec, layer, file, &text, path),
        Err(FilesError::Failed) => Err(LoadError::Failed { path }),
        Err(FilesError::OutOfMemory) => Err(LoadError::OutOfMemory),
    }
}

// The path of a file in the folder.
fn path_at(alloc: Global, spec: &LayerSpec, file: &[u8]) -> Mem<Text>
    ensures { IfOk result (λ path. path ≡ path_at_of spec.now file.now) }
{
    let mut path = spec.place.copy()?;
    path.push(b'/')?;
    path.append(file)?;
    Ok(path)
}

// Takes in the records of the text of a file.
fn take_file(
    alloc: Global,
    spec: &LayerSpec,
    layer: &mut Box<dyn Layer>,
    file: &[u8],
    text: &Text,
    path: Text,
) -> Result<(), LoadError>
    requires untouched { (state layer.old).touched ≡ [] }
    ensures { TakesText spec.now file.now text.now path (state layer.old) (state layer.new) result }
{
    let records = match read_records(alloc, text.bytes()) {
        Ok(records) => records.into_list(alloc)?,
        Err(RecordError::Bad { line }) => return Err(LoadError::Damaged { path, line }),
        Err(RecordError::OutOfMemory) => return Err(LoadError::OutOfMemory),
    };
    match misfit(spec.sort, front(spec, file), records.as_slice()) {
        Some(line) => Err(LoadError::Damaged { path, line }),
        None => Ok(take_new(layer, records)?),
    }
}

// What stands before the extension.
fn front<'a>(spec: &LayerSpec, file: &'a [u8]) -> &'a [u8]
    ensures { result.now ≡ front_of spec.now file.now }
{
    &file[..file.len().saturating_sub(spec.extension.bytes().len())]
}

// The line at which the records aren't those that a file of this name is for.
fn misfit(sort: LayerSort, front: &[u8], entries: &[Entry]) -> Option<u64>
    ensures { result ≡ misfit_of sort front.now entries.now }
{
    match stranger(sort, front, entries) {
        Some(entry) => Some(entry.line),
        None if lacks_one(sort, entries) => Some(1),
        None => None,
    }
}

// The first record that the file of this name isn't for.
fn stranger<'a>(sort: LayerSort, front: &[u8], entries: &'a [Entry]) -> Option<&'a Entry>
    ensures { option_copied result ≡ find (λ entry. not (belongs_of sort front.now entry)) entries.now }
{
    entries.iter().find(|entry| !belongs(sort, front, entry))
}

// Whether a file that must hold a record holds none.
fn lacks_one(sort: LayerSort, entries: &[Entry]) -> bool
    ensures { result ≡ lacks_one_of sort entries.now }
{
    match sort {
        LayerSort::File | LayerSort::Pack | LayerSort::Pipe => false,
        LayerSort::Tree => entries.is_empty(),
    }
}

fn belongs(sort: LayerSort, front: &[u8], entry: &Entry) -> bool
    ensures { result ≡ belongs_of sort front.now entry.now }
{
    match sort {
        LayerSort::File | LayerSort::Pipe => true,
        LayerSort::Tree => entry.name.bytes() == front,
        LayerSort::Pack => prefix(entry.name.bytes()) == front,
    }
}

// Takes in the records whose names the table doesn't have.
fn take_new(layer: &mut Box<dyn Layer>, records: List<Entry>) -> Mem<()>
    requires apart { AreDistinct (names_of records) }
    requires untouched { (state layer.old).touched ≡ [] }
    ensures ok { OnOk result (state layer.new ≡ with_new (state layer.old) records) }
    ensures err { OnErr result (IsSameButTable (state layer.old) (state layer.new)) }
{
    let mut left = records;
    while let Some(entry) = left.pop() {
        if !has(layer, &entry.name) {
            take_entry(layer, entry)?;
        }
    }
    Ok(())
}

fn take_entry(layer: &mut Box<dyn Layer>, entry: Entry) -> Mem<()>
    requires new { map.contains_key (state layer.old).table entry.name ≡ false }
    requires untouched { (state layer.old).touched ≡ [] }
    ensures ok { OnOk result (state layer.new ≡ taken_in (state layer.old) entry.name entry.item) }
    ensures err { OnErr result (state layer.new ≡ state layer.old) }
{
    let Entry {
        name,
        item,
        line: _,
    } = entry;
    layer.take_in(name, item)
}

fn has(layer: &Box<dyn Layer>, name: &Name) -> bool
    ensures { result ≡ map.contains_key (state layer.now).table name.now }
{
    layer.has(name)
}
