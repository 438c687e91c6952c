// Calls of one of the layers.
ghost use Rattle.std.specs.Prelude.{◌≡◌, ◌<◌, Some, None, Ok, IfOk, OnOk, OnErr, length, slice_get, true, false, map as each};
ghost use Rattle.std.specs.FinMap as map;
ghost use Rattle.std.specs.Option.{option_copied};
ghost use Rattle.dc_item.specs.declared.op.Op.TheVariants.{Put};
ghost use Rattle.dc_layer.specs.State.{LayerState, is_writable, is_put, admits, after_change, refusal, owned};
ghost use Rattle.dc_store.specs.Holders.{item_at as item_of, has_at as has_of};
ghost use Rattle.dc_store.specs.Listings.{owned_at as owned_of};
ghost use Rattle.dc_store.specs.Plans.{names_at as names_of};
ghost use Rattle.dc_store.specs.Writes.{is_writable_at as writable_of, takes_at as takes_of, change_at};

use crate::layers::Layers;
use dc_item::{Item, Op};
use dc_layer::{Layer, LayerError};
use dc_template::Kind;
use dc_text::{List, Mem, Name, OutOfMemory};

fn item_in<'a>(layer: &'a Box<dyn Layer>, name: &[u8]) -> Option<&'a Item>
    ensures { option_copied result ≡ map.get (state layer.now).table name.now }
{
    layer.seek(name)
}

fn is_open(layer: &Box<dyn Layer>) -> bool
    ensures { result ≡ is_writable (state layer.now) }
{
    layer.writable()
}

fn does_admit(layer: &Box<dyn Layer>, name: &Name, kind: Option<Kind>) -> Mem<bool>
    ensures { IfOk result (λ is. is ≡ admits (state layer.now) name.now kind) }
{
    layer.admits(name, kind)
}

fn names_in(layer: &Box<dyn Layer>) -> Mem<List<Name>>
    ensures { IfOk result (λ names. names ≡ map.keys (state layer.now).table) }
{
    layer.names()
}

fn owned_in(layer: &Box<dyn Layer>, owner: &Name) -> Mem<List<Name>>
    ensures { IfOk result (λ names. names ≡ owned (state layer.now).table owner.now) }
{
    layer.owned(owner)
}

// Changes a layer that takes the change.
fn change(layer: &mut Box<dyn Layer>, name: &Name, op: &Op) -> Mem<()>
    requires { refusal (state layer.old) name.now op.now ≡ None }
    ensures ok { OnOk result (state layer.new ≡ after_change (state layer.old) name.now op.now) }
    ensures err { OnErr result (state layer.new ≡ state layer.old) }
{
    match layer.change(name, op) {
        Ok(_taken) => Ok(()),
        Err(LayerError::OutOfMemory) => Err(OutOfMemory),
        Err(_) => unreachable!(),
    }
}

// Puts an item to a layer that takes it.
fn put(layer: &mut Box<dyn Layer>, name: Name, item: Item) -> Mem<()>
    requires { refusal (state layer.old) name (Put item) ≡ None }
    ensures ok { OnOk result (state layer.new ≡ after_change (state layer.old) name (Put item)) }
    ensures err { OnErr result (state layer.new ≡ state layer.old) }
{
    match layer.put(name, item) {
        Ok(_taken) => Ok(()),
        Err(LayerError::OutOfMemory) => Err(OutOfMemory),
        Err(_) => unreachable!(),
    }
}

// Tries a change that makes no item on a layer, and answers whether the layer took it: it is writable and has the item. One that doesn't
// stays as it is.
fn try_change(layer: &mut Box<dyn Layer>, name: &Name, op: &Op) -> Mem<bool>
    requires { is_put op.now ≡ false }
    ensures writable { result ≡ Ok true → is_writable (state layer.old) ≡ true }
    ensures there { result ≡ Ok true → map.contains_key (state layer.old).table name.now ≡ true }
    ensures done { result ≡ Ok true → state layer.new ≡ after_change (state layer.old) name.now op.now }
    ensures not_taken { result ≡ Ok false → state layer.new ≡ state layer.old }
    ensures err { OnErr result (state layer.new ≡ state layer.old) }
{
    match layer.change(name, op) {
        Ok(_taken) => Ok(true),
        Err(LayerError::OutOfMemory) => Err(OutOfMemory),
        Err(_) => Ok(false),
    }
}

/// The item of the layer at a place.
pub fn item_at<'a>(layers: &'a [Box<dyn Layer>], place: usize, name: &[u8]) -> Option<&'a Item>
    requires { place < length layers.now }
    ensures { option_copied result ≡ item_of (each state layers.now) place name.now }
{
    item_in(&layers[place], name)
}

/// Whether the layer at a place is writable.
pub fn is_open_at(layers: &[Box<dyn Layer>], place: usize) -> bool
    requires { place < length layers.now }
    ensures { result ≡ writable_of (each state layers.now) place }
{
    is_open(&layers[place])
}

/// Whether the layer at a place is writable and may hold the item.
pub fn takes_at(
    layers: &[Box<dyn Layer>],
    place: usize,
    name: &Name,
    kind: Option<Kind>,
) -> Mem<bool>
    requires { place < length layers.now }
    ensures { IfOk result (λ is. is ≡ takes_of (each state layers.now) name.now kind place) }
{
    let layer = &layers[place];
    Ok(is_open(layer) && does_admit(layer, name, kind)?)
}

/// The names of the items of the layer at a place.
pub fn names_at(layers: &[Box<dyn Layer>], place: usize) -> Mem<List<Name>>
    requires { place < length layers.now }
    ensures { IfOk result (λ names. names ≡ names_of (each state layers.now) place) }
{
    names_in(&layers[place])
}

/// The names of the items that have the owner in the layer at a place.
pub fn owned_at(layers: &[Box<dyn Layer>], place: usize, owner: &Name) -> Mem<List<Name>>
    requires { place < length layers.now }
    ensures { IfOk result (λ names. names ≡ owned_of (each state layers.now) owner.now place) }
{
    owned_in(&layers[place], owner)
}

/// Changes the layer at a place, which takes the change.
pub fn change_in(layers: &mut [Box<dyn Layer>], place: usize, name: &Name, op: &Op) -> Mem<()>
    requires within { place < length layers.old }
    requires taken { (layer : LayerState) → slice_get (each state layers.old) place ≡ Some layer → refusal layer name.now op.now ≡ None }
    ensures ok { OnOk result (each state layers.new ≡ change_at (each state layers.old) place (λ layer. after_change layer name.now op.now)) }
    ensures err { OnErr result (each state layers.new ≡ each state layers.old) }
{
    let layer = &mut layers[place];
    match change(layer, name, op) {
        Ok(()) => Ok(()),
        Err(error) => Err(error),
    }
}

/// Puts an item to the layer at a place, which takes it.
pub fn land_in(layers: &mut [Box<dyn Layer>], place: usize, name: Name, item: Item) -> Mem<()>
    requires within { place < length layers.old }
    requires taken { (layer : LayerState) → slice_get (each state layers.old) place ≡ Some layer → refusal layer name (Put item) ≡ None }
    ensures ok { OnOk result (each state layers.new ≡ change_at (each state layers.old) place (λ layer. after_change layer name (Put item))) }
    ensures err { OnErr result (each state layers.new ≡ each state layers.old) }
{
    let layer = &mut layers[place];
    match put(layer, name, item) {
        Ok(()) => Ok(()),
        Err(error) => Err(error),
    }
}

/// Tries a change that makes no item on the layer at a place, and answers whether the layer took it: it is writable and has the item. One
/// that doesn't stays as it is.
pub fn try_change_in(layers: &mut [Box<dyn Layer>], place: usize, name: &Name, op: &Op) -> Mem<bool>
    requires within { place < length layers.old }
    requires change { is_put op.now ≡ false }
    ensures writable { result ≡ Ok true → writable_of (each state layers.old) place ≡ true }
    ensures there { result ≡ Ok true → has_of (each state layers.old) name.now place ≡ true }
    ensures done { result ≡ Ok true → each state layers.new ≡ change_at (each state layers.old) place (λ layer. after_change layer name.now op.now) }
    ensures not_taken { result ≡ Ok false → each state layers.new ≡ each state layers.old }
    ensures err { OnErr result (each state layers.new ≡ each state layers.old) }
{
    let layer = &mut layers[place];
    match try_change(layer, name, op) {
        Ok(true) => Ok(true),
        Ok(false) => Ok(false),
        Err(error) => Err(error),
    }
}

impl Layers for Vec<Box<dyn Layer>> {
    ghost states = { λ layers. each (λ b. (Layer-box b).state b.value) layers.items };

    fn item_at(&self, place: usize, name: &[u8]) -> Option<&Item> {
        item_at(self.as_slice(), place, name)
    }

    fn writable_at(&self, place: usize) -> bool {
        is_open_at(self.as_slice(), place)
    }

    fn takes_at(&self, place: usize, name: &Name, kind: Option<Kind>) -> Mem<bool> {
        match takes_at(self.as_slice(), place, name, kind) {
            Ok(is) => Ok(is),
            Err(error) => Err(error),
        }
    }

    fn change_at(&mut self, place: usize, name: &Name, op: &Op) -> Mem<()> {
        change_in(self.as_mut_slice(), place, name, op)
    }

    fn try_change_at(&mut self, place: usize, name: &Name, op: &Op) -> Mem<bool> {
        match try_change_in(self.as_mut_slice(), place, name, op) {
            Ok(true) => Ok(true),
            Ok(false) => Ok(false),
            Err(error) => Err(error),
        }
    }
}
