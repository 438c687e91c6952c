// A layer that runs out of memory.
ghost use Rattle.std.specs.Prelude.{◌≡◌, ◌≢◌, ◌+◌, None, Some, Err, IfOk, IfErr, OnOk, OnErr, unwrap_or};
ghost use Rattle.dc_item.specs.declared.op.Op.TheVariants.{Put};
ghost use Rattle.dc_layer.specs.State.{blank, made_at, after_change, taken_of, refusal};

use crate::image::Image;
use crate::layer::{Layer, LayerError, Taken};
use crate::layer_core::is_put_op;
use crate::pattern::PatternError;
use crate::sorted::FileLayer;
use dc_conf::spec::{LayerSort, LayerSpec};
use dc_item::{Item, Op, Records};
use dc_template::Kind;
use dc_text::{List, Mem, Name, Text};
use std::alloc::Global;

/// A layer in one file, for tests: once it has taken so many changes, it finds no memory for a further one.
#[derive(Drop)]
pub struct TiredLayer {
    layer: FileLayer,
    /// How many changes it still takes.
    pub left: u64,
}

impl TiredLayer {
    ghost use Rattle.dc_conf.specs.declared.spec.LayerSort.TheVariants.{File};

    /// A layer that holds nothing and wasn't set up, and that takes so many changes.
    pub fn blank(alloc: Global, changes: u64) -> TiredLayer
        ensures state { ⟦<TiredLayer as Layer>⟧.state result ≡ blank File }
        ensures left { result.left ≡ changes }
    {
        TiredLayer {
            layer: FileLayer::blank(alloc),
            left: changes,
        }
    }

    // Why an operation is refused for which no memory is left.
    fn refusal(&self, name: &Name, op: &Op) -> LayerError
        ensures { result ≡ unwrap_or (refusal (⟦<FileLayer as Layer>⟧.state self.now.layer) name.now op.now) LayerError.OutOfMemory }
    {
        if !self.layer.writable() {
            return LayerError::ReadOnly;
        }
        if !self.layer.has(name) && !is_put_op(op) {
            return LayerError::NotHere;
        }
        LayerError::OutOfMemory
    }
}

impl Layer for TiredLayer {
    ghost state = { λ t. ⟦<FileLayer as Layer>⟧.state t.layer };

    fn sort(&self) -> LayerSort {
        self.layer.sort()
    }

    fn set_up(&mut self, spec: LayerSpec) -> Result<(), PatternError> {
        self.layer.set_up(spec)
    }

    fn take_in(&mut self, name: Name, item: Item) -> Mem<()> {
        self.layer.take_in(name, item)
    }

    fn take_all(&mut self, records: Records) {
        self.layer.take_all(records)
    }

    fn keep_old(&mut self, text: Text) {
        self.layer.keep_old(text)
    }

    fn leave_out(&mut self) {
        self.layer.leave_out()
    }

    fn has(&self, name: &Name) -> bool {
        self.layer.has(name)
    }

    fn item(&self, name: &Name) -> Option<&Item> {
        self.layer.item(name)
    }

    fn seek(&self, name: &[u8]) -> Option<&Item> {
        self.layer.seek(name)
    }

    fn writable(&self) -> bool {
        self.layer.writable()
    }

    fn admits(&self, name: &Name, kind: Option<Kind>) -> Mem<bool> {
        self.layer.admits(name, kind)
    }

    /// As the layer in one file while changes are left; then what isn't refused finds no memory.
    fn change(&mut self, name: &Name, op: &Op) -> Result<Taken, LayerError>
        ensures taken { IfOk result (λ taken. taken ≡ taken_of (made_at (⟦<Self as Layer>⟧.state self.old) name.now op.now)) }
        ensures ok { OnOk result (⟦<Self as Layer>⟧.state self.new ≡ after_change (⟦<Self as Layer>⟧.state self.old) name.now op.now) }
        ensures allowed { OnOk result (refusal (⟦<Self as Layer>⟧.state self.old) name.now op.now ≡ None) }
        ensures cause { IfErr result (λ error. error ≢ LayerError.OutOfMemory → refusal (⟦<Self as Layer>⟧.state self.old) name.now op.now ≡ Some error) }
        ensures err { OnErr result (⟦<Self as Layer>⟧.state self.new ≡ ⟦<Self as Layer>⟧.state self.old) }
        ensures fewer { OnOk result (self.new.left + 1 ≡ self.old.left) }
        ensures as_many { OnErr result (self.new.left ≡ self.old.left) }
        ensures tired { self.old.left ≡ 0 → refusal (⟦<Self as Layer>⟧.state self.old) name.now op.now ≡ None → result ≡ Err LayerError.OutOfMemory }
    {
        if self.left == 0 {
            return Err(self.refusal(name, op));
        }
        let taken = self.layer.change(name, op)?;
        self.left -= 1;
        Ok(taken)
    }

    /// As the layer in one file while changes are left, of which this is one; then what isn't refused finds no memory.
    fn put(&mut self, name: Name, item: Item) -> Result<Taken, LayerError>
        ensures taken { IfOk result (λ taken. taken ≡ taken_of (made_at (⟦<Self as Layer>⟧.state self.old) name (Put item))) }
        ensures ok { OnOk result (⟦<Self as Layer>⟧.state self.new ≡ after_change (⟦<Self as Layer>⟧.state self.old) name (Put item)) }
        ensures allowed { OnOk result (refusal (⟦<Self as Layer>⟧.state self.old) name (Put item) ≡ None) }
        ensures cause { IfErr result (λ error. error ≢ LayerError.OutOfMemory → refusal (⟦<Self as Layer>⟧.state self.old) name (Put item) ≡ Some error) }
        ensures err { OnErr result (⟦<Self as Layer>⟧.state self.new ≡ ⟦<Self as Layer>⟧.state self.old) }
        ensures fewer { OnOk result (self.new.left + 1 ≡ self.old.left) }
        ensures as_many { OnErr result (self.new.left ≡ self.old.left) }
        ensures tired { self.old.left ≡ 0 → refusal (⟦<Self as Layer>⟧.state self.old) name (Put item) ≡ None → result ≡ Err LayerError.OutOfMemory }
    {
        if self.left == 0 {
            return Err(self.refusal(&name, &Op::Put(item)));
        }
        let taken = self.layer.put(name, item)?;
        self.left -= 1;
        Ok(taken)
    }

    fn names(&self) -> Mem<List<Name>> {
        self.layer.names()
    }

    fn owned(&self, owner: &Name) -> Mem<List<Name>> {
        self.layer.owned(owner)
    }

    fn images(&self) -> Mem<List<Image>> {
        self.layer.images()
    }

    fn mark_saved(&mut self, saved: List<Image>) {
        self.layer.mark_saved(saved)
    }
}
