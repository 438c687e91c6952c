// The files that a layer asks for.
ghost use Rattle.std.specs.Prelude.{◌≡◌, ◌∷◌, [], IfOk, OnOk, map as each};
ghost use Rattle.std.specs.Option.{option_map, option_copied};
ghost use Rattle.std.specs.FinMap as map;
ghost use Rattle.dc_text.specs.Lines.{text_of};
ghost use Rattle.dc_item.specs.Printed.{record_lines};
ghost use Rattle.dc_layer.specs.Folders.{prefix as prefix_of};
ghost use Rattle.dc_layer.specs.PrefixTexts.{empty_texts as empty_texts_of, with_records};
ghost use Rattle.dc_layer.specs.State.{image_of, pipe_image as pipe_image_of, image_in as image_in_of, item_image as item_image_of, prefix_image, firsts, unless_nil};

use crate::folders::{path_in, prefix};
use crate::image::Image;
use dc_conf::spec::LayerSpec;
use dc_item::{Item, TableKey, print_record};
use dc_table::ItemTable;
use dc_text::{List, Mem, Text};
use indexmap::IndexMap;
use std::alloc::Global;

/// The file of a layer in one file, which holds the printed table.
pub fn file_image(spec: &LayerSpec, table: &ItemTable, old: &Option<Text>) -> Mem<Image>
    ensures { IfOk result (λ image. image ≡ image_of spec.now table.now.items old.now) }
{
    let path = spec.place.copy()?;
    let old = if spec.backup { copy_of(old)? } else { None };
    let bytes = table.print()?;
    Ok(image(spec, path, Some(bytes), old))
}

/// The printed table, as it goes out through a pipe.
pub fn pipe_image(alloc: Global, table: &ItemTable) -> Mem<Image>
    ensures { IfOk result (λ image. image ≡ pipe_image_of table.now.items) }
{
    let path = Text::from_bytes(alloc, b"-")?;
    let bytes = table.print()?;
    Ok(Image {
        path,
        mode: 0,
        bytes: Some(bytes),
        old: None,
    })
}

// A file of the layer.
fn image(spec: &LayerSpec, path: Text, bytes: Option<Text>, old: Option<Text>) -> Image
    ensures { result ≡ record { path = path; mode = spec.now.mode; bytes = bytes; old = old } }
{
    Image {
        path,
        mode: spec.mode,
        bytes,
        old,
    }
}

fn copy_of(text: &Option<Text>) -> Mem<Option<Text>>
    ensures { IfOk result (λ copy. copy ≡ text.now) }
{
    match text {
        None => Ok(None),
        Some(text) => Ok(Some(text.copy()?)),
    }
}

// A file in the folder of a layer, which goes where it is to hold no text.
fn image_in(alloc: Global, spec: &LayerSpec, name: &[u8], bytes: Option<Text>) -> Mem<Image>
    ensures { IfOk result (λ image. image ≡ image_in_of spec.now name.now bytes) }
{
    let path = path_in(alloc, spec, name)?;
    Ok(image(spec, path, bytes, None))
}

/// The files of these names, in their order, where each item has one.
pub fn item_images(
    alloc: Global,
    spec: &LayerSpec,
    table: &ItemTable,
    names: &[&[u8]],
) -> Mem<List<Image>>
    ensures { IfOk result (λ images. images ≡ each (item_image_of spec.now table.now.items) (each (λ name. name.now) names.now)) }
{
    let mut images = List::new(alloc);
    for name in names {
        images.push(item_image(alloc, spec, table, name)?)?;
    }
    Ok(images)
}

fn item_image(alloc: Global, spec: &LayerSpec, table: &ItemTable, name: &[u8]) -> Mem<Image>
    ensures { IfOk result (λ image. image ≡ item_image_of spec.now table.now.items name.now) }
{
    let text = record_of(alloc, name, table.get(name))?;
    image_in(alloc, spec, name, text)
}

// The printed record of the item, if there is one.
fn record_of(alloc: Global, name: &[u8], item: Option<&Item>) -> Mem<Option<Text>>
    ensures { IfOk result (λ text. text ≡ option_map (λ item. text_of (record_lines (name.now, item))) (option_copied item.entry)) }
{
    match item {
        None => Ok(None),
        Some(item) => {
            let mut text = Text::new(alloc);
            print_record(alloc, &mut text, name, item)?;
            Ok(Some(text))
        }
    }
}

/// The files of the prefixes of these names, each prefix where it comes first.
pub fn prefix_images(
    alloc: Global,
    spec: &LayerSpec,
    table: &ItemTable,
    names: &[&[u8]],
) -> Mem<List<Image>>
    ensures { IfOk result (λ images. images ≡ each (prefix_image spec.now table.now.items) (firsts (each prefix_of (each (λ name. name.now) names.now)))) }
{
    let mut texts = empty_texts(alloc, names)?;
    fill(alloc, table, &mut texts)?;
    images_of(alloc, spec, texts)
}

// An empty text for the prefix of each name, in the order in which the prefixes first come.
fn empty_texts(alloc: Global, names: &[&[u8]]) -> Mem<IndexMap<TableKey, Text>>
    ensures { IfOk result (λ texts. texts.entries ≡ empty_texts_of (firsts (each prefix_of (each (λ name. name.now) names.now)))) }
{
    let mut texts = IndexMap::new(alloc);
    for name in names {
        let front = Text::from_bytes(alloc, prefix(name))?;
        texts.insert(TableKey::new(front), Text::new(alloc))?;
    }
    Ok(texts)
}

// Puts the printed record of each item at the end of the text of its prefix, by one walk over the table.
fn fill(alloc: Global, table: &ItemTable, texts: &mut IndexMap<TableKey, Text>) -> Mem<()>
    ensures { OnOk result (texts.new.entries ≡ each (with_records (map.entries table.now.items)) texts.old.entries) }
{
    let order = table.in_order()?;
    for (name, item) in order.iter() {
        add_record(alloc, texts, name, item)?;
    }
    Ok(())
}

// Puts the printed record of the item at the end of the text of its prefix, if there is one.
fn add_record(
    alloc: Global,
    texts: &mut IndexMap<TableKey, Text>,
    name: &[u8],
    item: &Item,
) -> Mem<()>
    ensures { OnOk result (texts.new.entries ≡ each (with_records ((name.now, item.now) ∷ [])) texts.old.entries) }
{
    if let Some(text) = texts.get_mut(prefix(name)) {
        print_record(alloc, text, name, item)?;
    }
    Ok(())
}

// The file of each prefix, which holds its text. Where that is empty, the file is to go.
fn images_of(alloc: Global, spec: &LayerSpec, texts: IndexMap<TableKey, Text>) -> Mem<List<Image>>
    ensures { IfOk result (λ images. images ≡ each (λ e. image_in_of spec.now e.0 (unless_nil e.1)) texts.entries) }
{
    let mut images = List::new(alloc);
    for (front, text) in texts {
        images.push(image_in(alloc, spec, front.bytes(), unless_empty(text))?)?;
    }
    Ok(images)
}

fn unless_empty(text: Text) -> Option<Text>
    ensures { result ≡ unless_nil text }
{
    if text.bytes().is_empty() {
        return None;
    }
    Some(text)
}
