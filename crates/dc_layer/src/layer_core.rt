// What a layer holds, however it is kept.
ghost use Rattle.std.specs.Prelude.{◌≡◌, ◌&&◌, IfOk, false};
ghost use Rattle.std.specs.Option.{option_map_or};
ghost use Rattle.dc_layer.specs.Folders.{has_place_for as has_place_for_of};
ghost use Rattle.dc_layer.specs.Rules.{accepts, rules_of};
ghost use Rattle.dc_layer.specs.State.{blank, is_put, images_by, is_file};

use crate::folders::has_place_for;
use crate::image::Image;
use crate::imaging::{file_image, item_images, pipe_image, prefix_images};
use crate::layer::{Layer, LayerError, Taken};
use crate::pattern::PatternError;
use crate::set_up::SetUp;
use dc_conf::spec::{LayerSort, LayerSpec};
use dc_item::{Effect, Item, Op, Records};
use dc_table::ItemTable;
use dc_template::Kind;
use dc_text::{List, Mem, Name, Text};
use std::alloc::Global;

/// What a layer of any sort holds: its items, of which the table knows those that were touched since they were loaded or saved.
#[derive(Drop)]
pub struct LayerCore {
    alloc: Global,
    sort: LayerSort,
    set_up: Option<SetUp>,
    table: ItemTable,
    left_out: bool,
    old: Option<Text>,
}

impl LayerCore {
    /// A layer of this sort that holds nothing and wasn't set up.
    pub fn blank(alloc: Global, sort: LayerSort) -> LayerCore
        ensures { ⟦<LayerCore as Layer>⟧.state result ≡ blank sort }
    {
        LayerCore {
            alloc,
            sort,
            set_up: None,
            table: ItemTable::new(alloc),
            left_out: false,
            old: None,
        }
    }

    // The files that a layer with this spec asks for.
    fn images_by(&self, spec: &LayerSpec) -> Mem<List<Image>>
        ensures { IfOk result (λ images. images ≡ images_by self.now.sort spec.now (⟦<LayerCore as Layer>⟧.state self.now)) }
    {
        match self.sort {
            LayerSort::File => self.file_images(spec),
            LayerSort::Tree => {
                let names = self.table.touched()?;
                item_images(self.alloc, spec, &self.table, names.as_slice())
            }
            LayerSort::Pack => {
                let names = self.table.touched()?;
                prefix_images(self.alloc, spec, &self.table, names.as_slice())
            }
            LayerSort::Pipe => self.piped_images(spec),
        }
    }

    // The printed table, where something is touched and it goes out.
    fn piped_images(&self, spec: &LayerSpec) -> Mem<List<Image>>
        ensures { IfOk result (λ images. images ≡ images_by LayerSort.Pipe spec.now (⟦<LayerCore as Layer>⟧.state self.now)) }
    {
        let mut images = List::new(self.alloc);
        if self.table.is_touched() && spec.outfd {
            images.push(pipe_image(self.alloc, &self.table)?)?;
        }
        Ok(images)
    }

    // The one file, where something is touched.
    fn file_images(&self, spec: &LayerSpec) -> Mem<List<Image>>
        ensures { IfOk result (λ images. images ≡ images_by LayerSort.File spec.now (⟦<LayerCore as Layer>⟧.state self.now)) }
    {
        let mut images = List::new(self.alloc);
        if self.table.is_touched() {
            images.push(file_image(spec, &self.table, &self.old)?)?;
        }
        Ok(images)
    }

    // Whether the text before each save is kept beside the one file.
    fn keeps_old(&self) -> bool
        ensures { result ≡ (is_file self.now.sort && option_map_or (λ spec. spec.backup) self.now.set_up false) }
    {
        match (self.sort, &self.set_up) {
            (LayerSort::File, Some(set_up)) => set_up.spec().backup,
            _ => false,
        }
    }

    // Whether there is a place for the name, and the rules accept an item of this name and kind.
    fn takes(&self, set_up: &SetUp, name: &Name, kind: Option<Kind>) -> Mem<bool>
        ensures { IfOk result (λ is. is ≡ (has_place_for_of self.now.sort set_up.now.extension name.now && accepts (rules_of set_up.now) name.now kind)) }
    {
        let extension = set_up.spec().extension.bytes();
        Ok(
            has_place_for(self.sort, extension, name.bytes())
                && set_up.accepts(self.alloc, name, kind)?,
        )
    }
}

pub(crate) fn is_put_op(op: &Op) -> bool
    ensures { result ≡ is_put op.now }
{
    matches!(op, Op::Put(_))
}

// The text that the file of an image is to hold.
fn bytes_of(image: Image) -> Option<Text>
    ensures { result ≡ image.bytes }
{
    let Image {
        path: _,
        mode: _,
        bytes,
        old: _,
    } = image;
    bytes
}

impl Layer for LayerCore {
    ghost state = { λ c. record { sort = c.sort; spec = c.set_up; table = c.table.items; touched = c.table.touched; left_out = c.left_out; old = c.old } };

    fn sort(&self) -> LayerSort {
        self.sort
    }

    fn set_up(&mut self, spec: LayerSpec) -> Result<(), PatternError> {
        match SetUp::build(self.alloc, spec) {
            Ok(made) => {
                self.set_up = Some(made);
                Ok(())
            }
            Err(error) => Err(error),
        }
    }

    fn take_in(&mut self, name: Name, item: Item) -> Mem<()> {
        self.table.insert(name, item)
    }

    fn take_all(&mut self, records: Records) {
        self.table = ItemTable::from_records(self.alloc, records);
    }

    fn keep_old(&mut self, text: Text) {
        self.old = Some(text);
    }

    fn leave_out(&mut self) {
        self.table = ItemTable::new(self.alloc);
        self.left_out = true;
    }

    fn has(&self, name: &Name) -> bool {
        self.table.contains(name.bytes())
    }

    fn item(&self, name: &Name) -> Option<&Item> {
        self.table.get(name.bytes())
    }

    fn seek(&self, name: &[u8]) -> Option<&Item> {
        self.table.get(name)
    }

    fn writable(&self) -> bool {
        match &self.set_up {
            Some(set_up) => !set_up.spec().readonly && !self.left_out,
            None => false,
        }
    }

    fn admits(&self, name: &Name, kind: Option<Kind>) -> Mem<bool> {
        match &self.set_up {
            Some(set_up) => self.takes(set_up, name, kind),
            None => Ok(false),
        }
    }

    fn change(&mut self, name: &Name, op: &Op) -> Result<Taken, LayerError> {
        if !self.writable() {
            return Err(LayerError::ReadOnly);
        }
        match self.table.change(name, op)? {
            None => Err(LayerError::NotHere),
            Some(Effect::Same) => Ok(Taken::Same),
            Some(Effect::Changed) => Ok(Taken::Changed),
            Some(Effect::Gone) => Ok(Taken::Gone),
        }
    }

    fn put(&mut self, name: Name, item: Item) -> Result<Taken, LayerError> {
        if !self.writable() {
            return Err(LayerError::ReadOnly);
        }
        match self.table.put(name, item)? {
            Effect::Same => Ok(Taken::Same),
            Effect::Changed => Ok(Taken::Changed),
            Effect::Gone => Ok(Taken::Gone),
        }
    }

    fn names(&self) -> Mem<List<Name>> {
        self.table.names()
    }

    fn owned(&self, owner: &Name) -> Mem<List<Name>> {
        self.table.owned(owner)
    }

    #[tactic(auto, using(crate::proofs::TouchedLemmas::none_asked))]
    fn images(&self) -> Mem<List<Image>> {
        if !self.table.is_touched() {
            return Ok(List::new(self.alloc));
        }
        match &self.set_up {
            Some(set_up) => self.images_by(set_up.spec()),
            None => Ok(List::new(self.alloc)),
        }
    }

    fn mark_saved(&mut self, saved: List<Image>) {
        if self.keeps_old() {
            let mut saved = saved;
            if let Some(image) = saved.pop() {
                self.old = bytes_of(image);
            }
        }
        self.table.clear_touched();
    }
}
