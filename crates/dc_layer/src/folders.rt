// Which names have a file in a folder, and where it is.
ghost use Rattle.std.specs.Prelude.{◌≡◌, ◌++◌, ◌∷◌, codes, nat_eq, IfOk};
ghost use Rattle.std.specs.List.{ends_with};
ghost use Rattle.dc_layer.specs.Folders.{fits_tree as fits_tree_of, has_place_for as has_place_for_of, is_like_a_file as is_like_a_file_of, is_short as is_short_of, path_in as path_in_of, prefix as prefix_of};

use dc_conf::spec::{LayerSort, LayerSpec};
use dc_text::bytes::split_at_byte;
use dc_text::{Mem, Text};
use std::alloc::Global;

/// Whether a database of this sort, whose files end in the extension, has a place for an item of this name.
pub fn has_place_for(sort: LayerSort, extension: &[u8], name: &[u8]) -> bool
    ensures { result ≡ has_place_for_of sort extension.now name.now }
{
    match sort {
        LayerSort::File => true,
        LayerSort::Tree => fits_tree(extension, name),
        LayerSort::Pack => is_short(prefix(name)),
        LayerSort::Pipe => true,
    }
}

/// Whether the item of this name can have a file of its own in a tree.
#[tactic(auto, using(crate::proofs::FolderLemmas::fits_none, crate::proofs::FolderLemmas::fits_some))]
pub fn fits_tree(extension: &[u8], name: &[u8]) -> bool
    ensures { result ≡ fits_tree_of extension.now name.now }
{
    match split_at_byte(name, b'/') {
        None => is_short(name),
        Some((folder, rest)) => {
            is_short(folder) && !is_like_a_file(extension, folder) && fits_tree(extension, rest)
        }
    }
}

fn is_short(part: &[u8]) -> bool
    ensures { result ≡ is_short_of part.now }
{
    part.len() <= 200
}

// Whether a folder of this name could be taken for an item's file, or for one that is being written.
fn is_like_a_file(extension: &[u8], folder: &[u8]) -> bool
    ensures { result ≡ is_like_a_file_of extension.now folder.now }
{
    folder.ends_with(extension) || is_like_a_new_file(extension, folder)
}

#[tactic(auto, using(crate::proofs::FolderLemmas::ends_joined, crate::proofs::FolderLemmas::ends_apart))]
fn is_like_a_new_file(extension: &[u8], folder: &[u8]) -> bool
    ensures { result ≡ ends_with nat_eq folder.now (extension.now ++ codes "-new") }
{
    match folder.strip_suffix(b"-new".as_slice()) {
        Some(front) => front.ends_with(extension),
        None => false,
    }
}

/// The part of the name before its first slash, or the whole name.
#[tactic(auto, using(crate::proofs::FolderLemmas::prefix_whole))]
pub fn prefix(name: &[u8]) -> &[u8]
    ensures { result.now ≡ prefix_of name.now }
{
    match split_at_byte(name, b'/') {
        None => name,
        Some((front, _)) => front,
    }
}

/// The path of the file of this name in the folder of the database.
pub fn path_in(alloc: Global, spec: &LayerSpec, name: &[u8]) -> Mem<Text>
    ensures { IfOk result (λ path. path ≡ path_in_of spec.now name.now) }
{
    let mut path = Text::new(alloc);
    path.append(spec.place.bytes())?;
    path.push(b'/')?;
    path.append(name)?;
    path.append(spec.extension.bytes())?;
    Ok(path)
}
