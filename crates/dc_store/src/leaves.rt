// Writes to one layer, and tests of them.
ghost use Rattle.std.specs.Prelude.{◌≡◌, ◌<◌, ◌||◌, not, ℕ, List, Option, Some, None, Ok, Err, IfOk, OnOk, OnErr, true, false, length};
ghost use Rattle.std.specs.Option.{option_copied};
ghost use Rattle.dc_item.specs.After.{after_at};
ghost use Rattle.dc_layer.specs.State.{is_put};
ghost use Rattle.dc_store.specs.Holders.{item_at as item_of, has_at as has_of};
ghost use Rattle.dc_store.specs.Plans.{stored, leaf_written};
ghost use Rattle.dc_store.specs.StoreLaws.{AreSameBut};
ghost use Rattle.dc_store.specs.Writes.{is_change, is_open_at as open_of};
ghost use Rattle.dc_template.specs.declared.kinds.Kind.{Kind as KindOf};

use crate::layers::Layers;
use crate::store::StoreError;
use dc_item::{Effect, Item, Op};
use dc_template::Kind;
use dc_text::{Mem, Name};

/// Whether the operation makes an item where there is none.
pub fn is_put_op(op: &Op) -> bool
    ensures { result ≡ is_put op.now }
{
    matches!(op, Op::Put(_))
}

// Whether the operation makes something else of the item.
fn does_change(op: &Op, item: Option<&Item>) -> Mem<bool>
    ensures { IfOk result (λ does. does ≡ is_change (after_at op.now (option_copied item.entry))) }
{
    match op.effect(item)? {
        Effect::Same => Ok(false),
        _ => Ok(true),
    }
}

// Whether the layer at a place may be given what became of the item, which it has or hasn't.
fn is_open_at<L: Layers>(
    layers: &L,
    place: usize,
    name: &Name,
    kind: Option<Kind>,
    is_there: bool,
) -> Mem<bool>
    requires within { place < length (L.states layers.now) }
    requires there { is_there ≡ has_of (L.states layers.now) name.now place }
    ensures { IfOk result (λ is. is ≡ open_of (L.states layers.now) name.now kind place) }
{
    if is_there {
        Ok(layers.writable_at(place))
    } else {
        Ok(layers.takes_at(place, name, kind)?)
    }
}

/// Whether the layer at a place takes the operation.
pub fn leaf_takes<L: Layers>(
    layers: &L,
    place: usize,
    name: &Name,
    kind: Option<Kind>,
    op: &Op,
) -> Mem<bool>
    requires { place < length (L.states layers.now) }
    ensures { IfOk result (λ is. is ≡ (not (is_change (after_at op.now (item_of (L.states layers.now) place name.now))) || open_of (L.states layers.now) name.now kind place)) }
{
    let item = layers.item_at(place, name.bytes());
    let is_there = item.is_some();
    if !does_change(op, item)? {
        return Ok(true);
    }
    is_open_at(layers, place, name, kind, is_there)
}

/// Writes to the layer at a place.
pub fn write_leaf<L: Layers>(
    layers: &mut L,
    place: usize,
    name: &Name,
    kind: Option<Kind>,
    op: &Op,
) -> Result<(), StoreError>
    requires { place < length (L.states layers.old) }
    ensures ok { OnOk result ((told : List ℕ)
        → leaf_written (stored (L.states layers.old) told) place name.now kind (after_at op.now (item_of (L.states layers.old) place name.now))
        ≡ Some (stored (L.states layers.new) told)) }
    ensures refused { result ≡ Err StoreError.Refused → (told : List ℕ)
        → leaf_written (stored (L.states layers.old) told) place name.now kind (after_at op.now (item_of (L.states layers.old) place name.now)) ≡ None }
    ensures unchanged { OnErr result (L.states layers.new ≡ L.states layers.old) }
    ensures others { AreSameBut name.now (L.states layers.old) (L.states layers.new) }
    ensures count { length (L.states layers.new) ≡ length (L.states layers.old) }
{
    let item = layers.item_at(place, name.bytes());
    let is_there = item.is_some();
    if !does_change(op, item)? {
        return Ok(());
    }
    if !is_open_at(layers, place, name, kind, is_there)? {
        return Err(StoreError::Refused);
    }
    layers.change_at(place, name, op)?;
    Ok(())
}

/// Tries a change on the layer at a place, and answers whether it was done: the layer is writable and has the item. Then it is the write
/// of an item of any kind. Where it isn't done, all layers stay.
pub fn write_leaf_on_top<L: Layers>(layers: &mut L, place: usize, name: &Name, op: &Op) -> Mem<bool>
    requires { place < length (L.states layers.old) }
    ensures there { result ≡ Ok true → has_of (L.states layers.old) name.now place ≡ true }
    ensures done { result ≡ Ok true → (kind : Option KindOf) (told : List ℕ)
        → leaf_written (stored (L.states layers.old) told) place name.now kind (after_at op.now (item_of (L.states layers.old) place name.now))
        ≡ Some (stored (L.states layers.new) told) }
    ensures not_done { result ≡ Ok false → L.states layers.new ≡ L.states layers.old }
    ensures others { AreSameBut name.now (L.states layers.old) (L.states layers.new) }
    ensures count { length (L.states layers.new) ≡ length (L.states layers.old) }
{
    if is_put_op(op) {
        return Ok(false);
    }
    match layers.try_change_at(place, name, op) {
        Ok(true) => Ok(true),
        Ok(false) => Ok(false),
        Err(error) => Err(error),
    }
}
