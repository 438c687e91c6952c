// The names of the items of a plan.
ghost use Rattle.std.specs.Prelude.{◌≡◌, ◌++◌, IfOk, OnOk, length, map as each};
ghost use Rattle.std.specs.List.{flat_map, filter};
ghost use Rattle.std.specs.Option.{option_copied};
ghost use Rattle.dc_conf.specs.Trees.{shape};
ghost use Rattle.dc_store.specs.Holders.{AreWithin};
ghost use Rattle.dc_conf.specs.Plans.{IsOver};
ghost use Rattle.dc_store.specs.Listings.{owned_at as owned_of};
ghost use Rattle.dc_store.specs.Plans.{look, names_at as names_of, is_owned as is_owned_of};

use crate::boxes::{names_at, owned_at};
use crate::layers::Layers;
use crate::search::look_in;
use dc_conf::plans::Plan;
use dc_item::Item;
use dc_layer::{Layer, is_owned};
use dc_text::{List, Mem, Name};
use std::alloc::Global;

/// The names of the items of the layers at the places, one layer after the other.
pub fn names_in(alloc: Global, layers: &[Box<dyn Layer>], places: &[usize]) -> Mem<List<Name>>
    requires { AreWithin places.now (length layers.now) }
    ensures { IfOk result (λ names. names ≡ flat_map (names_of (each state layers.now)) places.now) }
{
    let mut names = List::new(alloc);
    for place in places {
        let more = names_at(layers, *place)?;
        append(&mut names, &more)?;
    }
    Ok(names)
}

/// The names of the items that have the owner in the layers at the places, one layer after the other.
pub fn owned_names_in(
    alloc: Global,
    layers: &[Box<dyn Layer>],
    places: &[usize],
    owner: &Name,
) -> Mem<List<Name>>
    requires { AreWithin places.now (length layers.now) }
    ensures { IfOk result (λ names. names ≡ flat_map (owned_of (each state layers.now) owner.now) places.now) }
{
    let mut names = List::new(alloc);
    for place in places {
        let more = owned_at(layers, *place, owner)?;
        append(&mut names, &more)?;
    }
    Ok(names)
}

/// Adds the names at the end.
pub fn append(names: &mut List<Name>, more: &List<Name>) -> Mem<()>
    ensures { OnOk result (names.new ≡ names.old ++ more.now) }
{
    for name in more.as_slice() {
        names.push(name.copy()?)?;
    }
    Ok(())
}

/// Those of the names of which the item that is seen has the owner.
pub fn owned_in<L: Layers>(
    alloc: Global,
    layers: &L,
    plan: &Plan,
    names: &List<Name>,
    owner: &Name,
) -> Mem<List<Name>>
    requires { IsOver (shape plan.now) (length (L.states layers.now)) }
    ensures { IfOk result (λ owned. owned ≡ filter (λ name. is_owned_of owner.now (look (L.states layers.now) (shape plan.now) name)) names.now) }
{
    let mut owned = List::new(alloc);
    for name in names.as_slice() {
        if has_owner(look_in(layers, plan, name), owner) {
            owned.push(name.copy()?)?;
        }
    }
    Ok(owned)
}

fn has_owner(item: Option<&Item>, owner: &Name) -> bool
    ensures { result ≡ is_owned_of owner.now (option_copied item.entry) }
{
    match item {
        None => false,
        Some(item) => is_owned(item, owner),
    }
}
