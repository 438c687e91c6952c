// What a run does when its tool has ended.
ghost use Rattle.std.specs.Prelude.{◌≡◌, ◌&&◌, List, map as each, MatchResult, true};
ghost use Rattle.dc_save.specs.Saving.{Saves, SaveCounts};
ghost use Rattle.dc_layer.specs.State.{file_images, saved};
ghost use Rattle.dc_run.specs.Ends.{comes_to_save as comes_to_save_at, end_unsent as end_unsent_of};
ghost use Rattle.dc_run.specs.Finishing.{SendsPiped, all_done, images_of};
ghost use Rattle.dc_run.specs.Saves.{Save, Commits};
ghost use Rattle.dc_run.specs.World.{ground_of};

use crate::outcome::{End, ToolEnd, comes_to_save, end_at_save, end_of};
use dc_layer::{Image, Layer};
use dc_outside::{Files, Link, LinkError};
use dc_save::{SaveError, save_images};
use dc_shelf::{Asked, asked_of_all, mark_all_saved};
use dc_text::{List, Text};
use std::alloc::Global;

/// Sends what goes out through a pipe and saves what changed in the layers, unless that isn't to be kept or the tool met want of memory or a file that
/// can't be read, and answers the end of the run.
#[tactic(auto, using(crate::proofs::StartLemmas::whole_slice))]
pub fn finish_used<L: Link, F: Files>(
    alloc: Global,
    keeps: bool,
    ended: ToolEnd,
    io: &mut L,
    files: &mut F,
    used: &mut Vec<Box<dyn Layer>>,
) -> End
    ensures { (last : List Save) × Commits (keeps && comes_to_save_at ended) ended
        (ground_of (F.files files.old) (L.link io.old) (each state used.old.items)) (ground_of (F.files files.new) (L.link io.new) (each state used.new.items))
        last result }
{
    finish(alloc, keeps, ended, io, files, used.as_mut_slice())
}

fn finish<L: Link, F: Files>(
    alloc: Global,
    keeps: bool,
    ended: ToolEnd,
    io: &mut L,
    files: &mut F,
    layers: &mut [Box<dyn Layer>],
) -> End
    ensures { (last : List Save) × Commits (keeps && comes_to_save_at ended) ended
        (ground_of (F.files files.old) (L.link io.old) (each state layers.old)) (ground_of (F.files files.new) (L.link io.new) (each state layers.new))
        last result }
{
    if !is_saved(keeps, &ended) {
        return end_of(ended);
    }
    commit(alloc, ended, io, files, layers)
}

// Whether a tool is saved that ended so.
fn is_saved(keeps: bool, ended: &ToolEnd) -> bool
    ensures { result ≡ (keeps && comes_to_save_at ended.now) }
{
    keeps && comes_to_save(ended)
}

// All images are made, then what goes out through a pipe is sent, and then the files are saved.
fn commit<L: Link, F: Files>(
    alloc: Global,
    ended: ToolEnd,
    io: &mut L,
    files: &mut F,
    layers: &mut [Box<dyn Layer>],
) -> End
    ensures { (last : List Save) × Commits true ended
        (ground_of (F.files files.old) (L.link io.old) (each state layers.old)) (ground_of (F.files files.new) (L.link io.new) (each state layers.new))
        last result }
{
    let Asked {
        files: images,
        text,
    } = match asked_of_all(alloc, layers) {
        Ok(asked) => asked,
        Err(_) => return End::OutOfMemory,
    };
    match send_piped(io, outgoing(&ended, text)) {
        Ok(()) => end_at_save(ended, save_asked(alloc, files, layers, images)),
        Err(error) => end_unsent(error),
    }
}

// The text that goes out through a pipe: only a tool that did all sends one.
fn outgoing(ended: &ToolEnd, text: Option<Text>) -> Option<Text>
    ensures { result ≡ all_done ended.now text }
{
    match ended {
        ToolEnd::Done => text,
        _ => None,
    }
}

// Sends the text in one write, where there is one.
fn send_piped<L: Link>(io: &mut L, text: Option<Text>) -> Result<(), LinkError>
    ensures { SendsPiped text (L.link io.old) (L.link io.new) result }
{
    match text {
        None => Ok(()),
        Some(text) => io.write(text.bytes()),
    }
}

fn end_unsent(error: LinkError) -> End
    ensures { result ≡ end_unsent_of error }
{
    match error {
        LinkError::Failed => End::LinkFault,
        LinkError::OutOfMemory => End::OutOfMemory,
    }
}

// Saves the images that the layers asked for, and then marks each layer as saved.
fn save_asked<F: Files>(
    alloc: Global,
    files: &mut F,
    layers: &mut [Box<dyn Layer>],
    images: List<List<Image>>,
) -> Result<(), SaveError>
    requires { images ≡ each file_images (each state layers.old) }
    ensures saves { Saves (images_of (each state layers.old)) (F.files files.old).view (F.files files.new).view result }
    ensures counts { SaveCounts (F.files files.old).view (F.files files.new).view result (F.files files.old).counts (F.files files.new).counts }
    ensures marked { MatchResult result (λ _. each state layers.new ≡ each saved (each state layers.old)) (λ _. each state layers.new ≡ each state layers.old) }
{
    match save_images(alloc, files, &images) {
        Ok(()) => {
            mark_all_saved(layers, images);
            Ok(())
        }
        Err(error) => Err(error),
    }
}

/// Saves the images of all layers that are kept in files, which are made before the first call of the files, and then marks each layer as saved.
pub fn save_all<F: Files>(
    alloc: Global,
    files: &mut F,
    layers: &mut [Box<dyn Layer>],
) -> Result<(), SaveError>
    ensures saves { Saves (images_of (each state layers.old)) (F.files files.old).view (F.files files.new).view result }
    ensures counts { SaveCounts (F.files files.old).view (F.files files.new).view result (F.files files.old).counts (F.files files.new).counts }
    ensures marked { MatchResult result (λ _. each state layers.new ≡ each saved (each state layers.old)) (λ _. each state layers.new ≡ each state layers.old) }
{
    match asked_of_all(alloc, layers) {
        Err(_) => Err(SaveError::OutOfMemory),
        Ok(asked) => save_asked(alloc, files, layers, asked.files),
    }
}
