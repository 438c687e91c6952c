// Where databases are kept.
ghost use Rattle.std.specs.Prelude.{◌≡◌, ◌∷◌, ◌++◌, [], IfOk};
ghost use Rattle.std.specs.List.{list_any};
ghost use Rattle.std.specs.Option.{option_copied};
ghost use Rattle.dc_conf.specs.ConfFaults.{place_in as place_in_of, sort_in as sort_in_of, place_of as place_of_stanza, paths_at as paths_at_of, paths_in as paths_in_of, is_made as is_made_of, is_front, meet as meet_of, driver_in as driver_in_of};

use crate::drivers::Driver;
use crate::fields::{Field, field_at};
use crate::spec::LayerSort;
use crate::values::without_last_slash;
use dc_text::{List, Mem, Text};
use std::alloc::Global;

/// The driver of a database, if it has one.
pub fn driver_in(stanza: &[Field]) -> Option<Driver>
    ensures { result ≡ driver_in_of stanza.now }
{
    match field_at(stanza, b"driver") {
        Some(field) => Driver::read(field.value.bytes()),
        None => None,
    }
}

/// Whether the database is made of others.
pub fn is_made(stanza: &[Field]) -> bool
    ensures { result ≡ is_made_of stanza.now }
{
    match driver_in(stanza) {
        Some(Driver::Stack | Driver::Backup | Driver::Debug) => true,
        Some(Driver::File | Driver::DirTree | Driver::PackageDir | Driver::Pipe) | None => false,
    }
}

/// The field that says where the database is kept, if its driver keeps one.
pub fn place_in(stanza: &[Field]) -> Option<&Field>
    ensures { option_copied result ≡ place_in_of stanza.now }
{
    match driver_in(stanza) {
        Some(Driver::File) => field_at(stanza, b"filename"),
        Some(Driver::DirTree | Driver::PackageDir) => field_at(stanza, b"directory"),
        Some(Driver::Pipe | Driver::Stack | Driver::Backup | Driver::Debug) | None => None,
    }
}

/// How the database is kept: in one file, unless its driver says a folder or a pipe.
pub fn sort_in(stanza: &[Field]) -> LayerSort
    ensures { result ≡ sort_in_of stanza.now }
{
    match driver_in(stanza) {
        Some(Driver::DirTree) => LayerSort::Tree,
        Some(Driver::PackageDir) => LayerSort::Pack,
        Some(Driver::Pipe) => LayerSort::Pipe,
        Some(Driver::File | Driver::Stack | Driver::Backup | Driver::Debug) | None => {
            LayerSort::File
        }
    }
}

/// The path at which the database is kept, that of a folder without a slash at its end. It is empty where the database isn't
/// kept in a place.
pub fn place_of(stanza: &[Field]) -> &[u8]
    ensures { result.now ≡ place_of_stanza stanza.now }
{
    let Some(field) = place_in(stanza) else {
        return b"";
    };
    match sort_in(stanza) {
        LayerSort::File | LayerSort::Pipe => field.value.bytes(),
        LayerSort::Tree | LayerSort::Pack => without_last_slash(field.value.bytes()),
    }
}

/// The paths of a database, none where it isn't kept in a place.
pub fn paths_in(alloc: Global, stanza: &[Field]) -> Mem<List<Text>>
    ensures { IfOk result (λ paths. paths ≡ paths_in_of stanza.now) }
{
    match place_in(stanza) {
        Some(_) => paths_at(alloc, sort_in(stanza), place_of(stanza)),
        None => Ok(List::new(alloc)),
    }
}

fn paths_at(alloc: Global, sort: LayerSort, place: &[u8]) -> Mem<List<Text>>
    ensures { IfOk result (λ paths. paths ≡ paths_at_of sort place.now) }
{
    let mut paths = List::new(alloc);
    if let LayerSort::Pipe = sort {
        return Ok(paths);
    }
    paths.push(Text::from_bytes(alloc, place)?)?;
    if let LayerSort::File = sort {
        paths.push(beside(alloc, place, b"-new")?)?;
        paths.push(beside(alloc, place, b"-old")?)?;
    }
    Ok(paths)
}

fn beside(alloc: Global, place: &[u8], end: &[u8]) -> Mem<Text>
    ensures { IfOk result (λ path. path ≡ place.now ++ end.now) }
{
    let mut path = Text::from_bytes(alloc, place)?;
    path.append(end)?;
    Ok(path)
}

/// Whether some path of the one meets some path of the other.
pub fn some_meet(paths: &[Text], others: &[Text]) -> bool
    ensures { result ≡ list_any (λ path. list_any (meet_of path) others.now) paths.now }
{
    paths.iter().any(|path| meets_some(path.bytes(), others))
}

fn meets_some(path: &[u8], others: &[Text]) -> bool
    ensures { result ≡ list_any (meet_of path.now) others.now }
{
    others.iter().any(|other| meet(path, other.bytes()))
}

// Whether one path is the other, or lies below it.
fn meet(path: &[u8], other: &[u8]) -> bool
    ensures { result ≡ meet_of path.now other.now }
{
    path == other || lies_below(other, path) || lies_below(path, other)
}

// Whether the path lies below the folder.
fn lies_below(path: &[u8], folder: &[u8]) -> bool
    ensures { result ≡ is_front (folder.now ++ 47 ∷ []) path.now }
{
    let mut front = folder;
    let mut rest = path;
    while let [byte, bytes @ ..] = front {
        match rest {
            [first, tail @ ..] if *byte == *first => {
                front = bytes;
                rest = tail;
            }
            _ => return false,
        }
    }
    begins_with_slash(rest)
}

fn begins_with_slash(path: &[u8]) -> bool
    ensures { result ≡ is_front (47 ∷ []) path.now }
{
    match path {
        [] => false,
        [first, ..] => b'/' == *first,
    }
}
