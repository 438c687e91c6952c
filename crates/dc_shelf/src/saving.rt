// What the layers of a run ask to be saved.
ghost use Rattle.std.specs.Prelude.{◌≡◌, ◌∷◌, [], true, ◌<◌, ◌≤◌, ◌+◌, ◌++◌, length, take, drop, slice_get, map as each, IfOk, OnOk, Some};
ghost use Rattle.dc_layer.specs.State.{LayerState, file_images, images as images_in, is_pipe, piped, piped_of, saved};
ghost use Rattle.dc_shelf.specs.Shelves.{IsMarkedAt};
ghost use Rattle.dc_shelf.specs.Asks.{Gathers};

use dc_conf::spec::LayerSort;
use dc_layer::{Image, Layer};
use dc_text::{List, Mem, Text};
use std::alloc::Global;

/// What the layers of a run ask to be saved.
#[derive(Drop)]
pub struct Asked {
    /// The files of each layer, in order.
    pub files: List<List<Image>>,
    /// The text that goes out through a pipe, if one does.
    pub text: Option<Text>,
}

/// What the layers ask to be saved.
pub fn asked_of_all(alloc: Global, layers: &[Box<dyn Layer>]) -> Mem<Asked>
    ensures files { IfOk result (λ asked. asked.files ≡ each file_images (each state layers.now)) }
    ensures text { IfOk result (λ asked. asked.text ≡ piped_of (each state layers.now)) }
{
    let mut asked = Asked {
        files: List::new(alloc),
        text: None,
    };
    gather(alloc, layers, &mut asked)?;
    Ok(asked)
}

// Adds what the layers ask, in order.
fn gather(alloc: Global, layers: &[Box<dyn Layer>], asked: &mut Asked) -> Mem<()>
    ensures { OnOk result (Gathers (each state layers.now) asked.old asked.new) }
{
    match layers {
        [] => Ok(()),
        [layer, behind @ ..] => {
            ask(alloc, layer, asked)?;
            gather(alloc, behind, asked)
        }
    }
}

// Adds what the layer asks.
fn ask(alloc: Global, layer: &Box<dyn Layer>, asked: &mut Asked) -> Mem<()>
    ensures { OnOk result (Gathers (state layer.now ∷ []) asked.old asked.new) }
{
    if is_piped(layer) {
        let text = text_of(layer)?;
        asked.files.push(List::new(alloc))?;
        asked.text = asked.text.take().or(text);
        return Ok(());
    }
    asked.files.push(images_of(layer)?)?;
    Ok(())
}

fn is_piped(layer: &Box<dyn Layer>) -> bool
    ensures { result ≡ is_pipe (state layer.now).sort }
{
    match layer.sort() {
        LayerSort::Pipe => true,
        LayerSort::File | LayerSort::Tree | LayerSort::Pack => false,
    }
}

fn images_of(layer: &Box<dyn Layer>) -> Mem<List<Image>>
    ensures { IfOk result (λ images. images ≡ images_in (state layer.now)) }
{
    layer.images()
}

// The text that goes out through a pipe. A layer has one image there, if any.
fn text_of(layer: &Box<dyn Layer>) -> Mem<Option<Text>>
    requires { is_pipe (state layer.now).sort ≡ true }
    ensures { IfOk result (λ text. text ≡ piped (state layer.now)) }
{
    let mut images = images_of(layer)?;
    match images.pop() {
        None => Ok(None),
        Some(image) => Ok(image.bytes),
    }
}

/// Marks each layer as saved, once its images are.
pub fn mark_all_saved(layers: &mut [Box<dyn Layer>], images: List<List<Image>>)
    requires { images ≡ each file_images (each state layers.old) }
    ensures { each state layers.new ≡ each saved (each state layers.old) }
{
    let mut left = images;
    let count = layers.len();
    mark_to(layers, &mut left, count)
}

// Marks so many first layers, the last of them first, by the images that each asked for.
fn mark_to(layers: &mut [Box<dyn Layer>], images: &mut List<List<Image>>, count: usize)
    requires within { count ≤ length layers.old }
    requires asked { images.old ≡ take count (each file_images (each state layers.old)) }
    ensures { each state layers.new ≡ each saved (take count (each state layers.old)) ++ drop count (each state layers.old) }
{
    if count == 0 {
        return;
    }
    mark_last(layers, images, count - 1);
    mark_to(layers, images, count - 1)
}

fn mark_last(layers: &mut [Box<dyn Layer>], images: &mut List<List<Image>>, place: usize)
    requires within { place < length layers.old }
    requires asked { images.old ≡ take (place + 1) (each file_images (each state layers.old)) }
    ensures marked { IsMarkedAt place (each state layers.old) (each state layers.new) }
    ensures left { images.new ≡ take place (each file_images (each state layers.old)) }
{
    match images.pop() {
        None => unreachable!(),
        Some(asked) => mark_at(layers, place, asked),
    }
}

fn mark_at(layers: &mut [Box<dyn Layer>], place: usize, asked: List<Image>)
    requires within { place < length layers.old }
    requires asked { (layer : LayerState) → slice_get (each state layers.old) place ≡ Some layer → asked ≡ file_images layer }
    ensures { IsMarkedAt place (each state layers.old) (each state layers.new) }
{
    let layer = &mut layers[place];
    mark_one(layer, asked)
}

fn mark_one(layer: &mut Box<dyn Layer>, asked: List<Image>)
    requires { asked ≡ file_images (state layer.old) }
    ensures { state layer.new ≡ saved (state layer.old) }
{
    layer.mark_saved(asked)
}
