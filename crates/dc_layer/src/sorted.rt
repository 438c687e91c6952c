// A layer of a sort that its type names.
ghost use Rattle.std.specs.Prelude.{◌≡◌};
ghost use Rattle.dc_layer.specs.State.{blank};
ghost use Rattle.dc_conf.specs.declared.spec.LayerSort.{LayerSort};
ghost use Rattle.dc_conf.specs.declared.spec.LayerSort.TheVariants.{File, Pipe};

use crate::image::Image;
use crate::layer::{Layer, LayerError, Taken};
use crate::layer_core::LayerCore;
use crate::pattern::PatternError;
use dc_conf::spec::{LayerSort, LayerSpec};
use dc_item::{Item, Op, Records};
use dc_template::Kind;
use dc_text::{List, Mem, Name, Text};
use std::alloc::Global;
use std::marker::PhantomData;

/// A sort of layers, as a type.
pub trait Sort: Drop {
    /// The sort.
    ghost sort: { LayerSort };

    fn value() -> LayerSort
        ensures { result ≡ sort };
}

/// One file: a text of records (debconf.conf(5), File).
#[derive(Drop)]
pub struct FileSort;

impl Sort for FileSort {
    ghost sort = { File };

    fn value() -> LayerSort {
        LayerSort::File
    }
}

/// A pipe: a text of records that comes on standard input, and goes out on standard output (debconf.conf(5), Pipe).
#[derive(Drop)]
pub struct PipeSort;

impl Sort for PipeSort {
    ghost sort = { Pipe };

    fn value() -> LayerSort {
        LayerSort::Pipe
    }
}

/// A layer of the sort.
#[derive(Drop)]
pub struct SortedLayer<S: Sort> {
    inner: LayerCore,
    of: PhantomData<S>,
}

/// A layer in one file.
pub type FileLayer = SortedLayer<FileSort>;

/// A layer that comes and goes through a pipe.
pub type PipeLayer = SortedLayer<PipeSort>;

impl<S: Sort> SortedLayer<S> {
    /// A layer that holds nothing and wasn't set up.
    pub fn blank(alloc: Global) -> SortedLayer<S>
        ensures { ⟦<SortedLayer<S> as Layer>⟧.state result ≡ blank S.sort }
    {
        SortedLayer {
            inner: LayerCore::blank(alloc, S::value()),
            of: PhantomData,
        }
    }
}

impl<S: Sort> Layer for SortedLayer<S> {
    ghost state = { λ l. ⟦<LayerCore as Layer>⟧.state l.inner };

    fn sort(&self) -> LayerSort {
        self.inner.sort()
    }

    fn set_up(&mut self, spec: LayerSpec) -> Result<(), PatternError> {
        self.inner.set_up(spec)
    }

    fn take_in(&mut self, name: Name, item: Item) -> Mem<()> {
        self.inner.take_in(name, item)
    }

    fn take_all(&mut self, records: Records) {
        self.inner.take_all(records)
    }

    fn keep_old(&mut self, text: Text) {
        self.inner.keep_old(text)
    }

    fn leave_out(&mut self) {
        self.inner.leave_out()
    }

    fn has(&self, name: &Name) -> bool {
        self.inner.has(name)
    }

    fn item(&self, name: &Name) -> Option<&Item> {
        self.inner.item(name)
    }

    fn seek(&self, name: &[u8]) -> Option<&Item> {
        self.inner.seek(name)
    }

    fn writable(&self) -> bool {
        self.inner.writable()
    }

    fn admits(&self, name: &Name, kind: Option<Kind>) -> Mem<bool> {
        self.inner.admits(name, kind)
    }

    fn change(&mut self, name: &Name, op: &Op) -> Result<Taken, LayerError> {
        self.inner.change(name, op)
    }

    fn put(&mut self, name: Name, item: Item) -> Result<Taken, LayerError> {
        self.inner.put(name, item)
    }

    fn names(&self) -> Mem<List<Name>> {
        self.inner.names()
    }

    fn owned(&self, owner: &Name) -> Mem<List<Name>> {
        self.inner.owned(owner)
    }

    fn images(&self) -> Mem<List<Image>> {
        self.inner.images()
    }

    fn mark_saved(&mut self, saved: List<Image>) {
        self.inner.mark_saved(saved)
    }
}
