// Saving the images of layers.
ghost use Rattle.std.specs.Prelude.{◌≡◌, ◌∷◌, [], IfOk, reverse, map as each};
ghost use Rattle.dc_outside.specs.Counts.{Counted};
ghost use Rattle.dc_save.specs.Steps.{Does};
ghost use Rattle.dc_save.specs.Saving.{new_path as new_path_of, old_path as old_path_of, written, moved, removed, keeping, put as put_of, placing, image_steps, all_images, Saves, SaveCounted, SaveCounts, EndsWith, LeavesOldOrNew};

use dc_layer::Image;
use dc_outside::{Files, FilesError};
use dc_text::{List, Mem, Text};
use std::alloc::Global;

/// Why images weren't saved.
#[derive(Drop)]
pub enum SaveError {
    /// A call on the files failed. The path is that of the image.
    Failed { path: Text },
    OutOfMemory,
}

// An image with what its save needs: a path that it may answer, and the paths beside it.
#[derive(Drop)]
struct Saving<'a> {
    image: &'a Image,
    kept: Text,
    new_path: Text,
    old_path: Text,
    ghost kept_is: { kept ≡ image.now.path },
    ghost new_is: { new_path ≡ new_path_of image.now.path },
    ghost old_is: { old_path ≡ old_path_of image.now.path },
}

// Writes the text to the path, and makes it last there.
fn write_lasting<F: Files>(
    files: &mut F,
    path: &Text,
    text: &Text,
    mode: u16,
) -> Result<(), FilesError>
    ensures does { Does (written path.now text.now mode) (F.files files.old).view (F.files files.new).view result }
    ensures counts { Counted (F.files files.old).counts (F.files files.new).counts result }
{
    match files.write(path, text.bytes(), mode) {
        Ok(()) => files.sync(path),
        Err(error) => Err(error),
    }
}

// Puts the file in the place of the path, and makes that last.
fn move_lasting<F: Files>(files: &mut F, from: &Text, to: &Text) -> Result<(), FilesError>
    ensures does { Does (moved from.now to.now) (F.files files.old).view (F.files files.new).view result }
    ensures counts { Counted (F.files files.old).counts (F.files files.new).counts result }
{
    match files.rename(from, to) {
        Ok(()) => files.sync_names(),
        Err(error) => Err(error),
    }
}

// Takes the path away, and makes that last.
fn remove_lasting<F: Files>(files: &mut F, path: &Text) -> Result<(), FilesError>
    ensures does { Does (removed path.now) (F.files files.old).view (F.files files.new).view result }
    ensures counts { Counted (F.files files.old).counts (F.files files.new).counts result }
{
    match files.remove(path) {
        Ok(()) => files.sync_names(),
        Err(error) => Err(error),
    }
}

// Keeps the old text beside the path, where there is one.
fn keep<F: Files>(files: &mut F, saving: &Saving) -> Result<(), FilesError>
    ensures does { Does (keeping saving.now.image.now) (F.files files.old).view (F.files files.new).view result }
    ensures counts { Counted (F.files files.old).counts (F.files files.new).counts result }
{
    match &saving.image.old {
        Some(text) => write_lasting(files, &saving.old_path, text, saving.image.mode),
        None => Ok(()),
    }
}

// Puts the text in its place.
fn put<F: Files>(files: &mut F, saving: &Saving, text: &Text) -> Result<(), FilesError>
    ensures does { Does (put_of saving.now.image.now text.now) (F.files files.old).view (F.files files.new).view result }
    ensures counts { Counted (F.files files.old).counts (F.files files.new).counts result }
{
    match write_lasting(files, &saving.new_path, text, saving.image.mode) {
        Ok(()) => move_lasting(files, &saving.new_path, &saving.image.path),
        Err(error) => Err(error),
    }
}

// Puts the image's text in its place, or takes the file away.
fn place<F: Files>(files: &mut F, saving: &Saving) -> Result<(), FilesError>
    ensures does { Does (placing saving.now.image.now) (F.files files.old).view (F.files files.new).view result }
    ensures counts { Counted (F.files files.old).counts (F.files files.new).counts result }
{
    match &saving.image.bytes {
        Some(text) => put(files, saving, text),
        None => remove_lasting(files, &saving.image.path),
    }
}

fn save_image<F: Files>(files: &mut F, saving: &Saving) -> Result<(), FilesError>
    ensures does { Does (image_steps saving.now.image.now) (F.files files.old).view (F.files files.new).view result }
    ensures counts { Counted (F.files files.old).counts (F.files files.new).counts result }
{
    match keep(files, saving) {
        Ok(()) => place(files, saving),
        Err(error) => Err(error),
    }
}

// Saves the image, and names its path where a call failed.
fn save_named<F: Files>(files: &mut F, saving: Saving) -> Result<(), SaveError>
    ensures saves { Saves (saving.entry.image.now ∷ []) (F.files files.old).view (F.files files.new).view result }
    ensures counts { SaveCounted result (F.files files.old).counts (F.files files.new).counts }
{
    match save_image(files, &saving) {
        Ok(()) => Ok(()),
        Err(FilesError::Failed) => Err(SaveError::Failed { path: saving.kept }),
        Err(FilesError::OutOfMemory) => Err(SaveError::OutOfMemory),
    }
}

// Saves all, the last first.
fn save_each<F: Files>(files: &mut F, savings: Vec<Saving>) -> Result<(), SaveError>
    ensures saves { Saves (reverse (each (λ s. s.image.now) savings.entry.items)) (F.files files.old).view (F.files files.new).view result }
    ensures counts { SaveCounted result (F.files files.old).counts (F.files files.new).counts }
{
    let mut left = savings;
    while let Some(saving) = left.pop() {
        match save_named(files, saving) {
            Ok(()) => {}
            Err(error) => return Err(error),
        }
    }
    Ok(())
}

fn prepare_one<'a>(image: &'a Image) -> Mem<Saving<'a>>
    ensures { IfOk result (λ saving. saving.image.now ≡ image.now) }
{
    let kept = image.path.copy()?;
    let mut new_path = image.path.copy()?;
    new_path.append(b"-new")?;
    let mut old_path = image.path.copy()?;
    old_path.append(b"-old")?;
    Ok(Saving {
        image,
        kept,
        new_path,
        old_path,
    })
}

// What the save of the images needs, the last first.
fn prepare<'a>(alloc: Global, images: &'a List<List<Image>>) -> Mem<Vec<Saving<'a>>>
    ensures { IfOk result (λ savings. each (λ s. s.image.now) savings.items ≡ reverse (all_images images.now)) }
{
    let mut savings = Vec::new(alloc);
    for layer in images.as_slice() {
        for image in layer.as_slice() {
            savings.push(prepare_one(image)?)?;
        }
    }
    savings.reverse();
    Ok(savings)
}

/// Saves the images of layers, in order.
///
/// Each text is written beside its path, made to last there, and put in its place, so that no reader ever finds half of it.
/// All memory of the program's own is taken before the first call.
pub fn save_images<F: Files>(
    alloc: Global,
    files: &mut F,
    images: &List<List<Image>>,
) -> Result<(), SaveError>
    ensures saves { Saves (all_images images.now) (F.files files.old).view (F.files files.new).view result }
    ensures ends { EndsWith (all_images images.now) (F.files files.old).view (F.files files.new).view result }
    ensures moments { LeavesOldOrNew (all_images images.now) (F.files files.old).view (F.files files.new).view }
    ensures counts { SaveCounts (F.files files.old).view (F.files files.new).view result (F.files files.old).counts (F.files files.new).counts }
{
    match prepare(alloc, images) {
        Ok(savings) => save_each(files, savings),
        Err(_) => Err(SaveError::OutOfMemory),
    }
}
