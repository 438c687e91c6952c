// Searches through a plan.
ghost use Rattle.std.specs.Prelude.{◌≡◌, ◌<◌, ◌++◌, ◌||◌, None, IfOk, OnOk, length, if◌then◌else◌};
ghost use Rattle.std.specs.Option.{option_copied, option_map};
ghost use Rattle.dc_conf.specs.Trees.{shape, shapes};
ghost use Rattle.dc_conf.specs.Plans.{IsOver, AreOver, leaves, leaves_of};
ghost use Rattle.dc_store.specs.Holders.{item_at as item_of, has_at as has_of, holder_of, holds_of, look_of, look_below_of};
ghost use Rattle.dc_store.specs.Plans.{holder, holds, look, look_below, has_below};

use crate::layers::Layers;
use dc_conf::plans::{Plan, PlanList};
use dc_item::Item;
use dc_text::{Mem, Name};
use std::alloc::Global;

/// The topmost place of the plan that has the item, and the item. The bytes needn't be a name.
#[cycle(find)]
pub fn find_in<'a, L: Layers>(layers: &'a L, plan: &Plan, name: &[u8]) -> Option<(usize, &'a Item)>
    requires { IsOver (shape plan.now) (length (L.states layers.now)) }
    ensures place { option_map (λ found. found.0) result ≡ holder_of (L.states layers.now) (leaves (shape plan.now)) name.now }
    ensures item { option_map (λ found. found.1.now) result ≡ look_of (L.states layers.now) (leaves (shape plan.now)) name.now }
{
    match plan {
        Plan::Leaf(place) => match layers.item_at(*place, name) {
            Some(item) => Some((*place, item)),
            None => None,
        },
        Plan::Stack(plans) => find_among(layers, plans, name),
        Plan::Backup(first, _) => find_in(layers, first, name),
        Plan::Debug(plan) => find_in(layers, plan, name),
    }
}

/// The same of a list of plans.
#[cycle(find)]
pub fn find_among<'a, L: Layers>(
    layers: &'a L,
    plans: &PlanList,
    name: &[u8],
) -> Option<(usize, &'a Item)>
    requires { AreOver (shapes plans.now) (length (L.states layers.now)) }
    ensures place { option_map (λ found. found.0) result ≡ holder_of (L.states layers.now) (leaves_of (shapes plans.now)) name.now }
    ensures item { option_map (λ found. found.1.now) result ≡ look_of (L.states layers.now) (leaves_of (shapes plans.now)) name.now }
{
    match plans {
        PlanList::End => None,
        PlanList::More(plan, rest) => match find_in(layers, plan, name) {
            Some(found) => Some(found),
            None => find_among(layers, rest, name),
        },
    }
}

/// The topmost place that has the item.
pub fn holder_in<L: Layers>(layers: &L, plan: &Plan, name: &Name) -> Option<usize>
    requires { IsOver (shape plan.now) (length (L.states layers.now)) }
    ensures { result ≡ holder (L.states layers.now) (shape plan.now) name.now }
{
    let (place, _) = find_in(layers, plan, name.bytes())?;
    Some(place)
}

/// Whether a place of the plan has the item.
pub fn holds_in<L: Layers>(layers: &L, plan: &Plan, name: &Name) -> bool
    requires { IsOver (shape plan.now) (length (L.states layers.now)) }
    ensures { result ≡ holds (L.states layers.now) (shape plan.now) name.now }
{
    holder_in(layers, plan, name).is_some()
}

/// What is seen under the name. The bytes needn't be one.
pub fn seek_in<'a, L: Layers>(layers: &'a L, plan: &Plan, name: &[u8]) -> Option<&'a Item>
    requires { IsOver (shape plan.now) (length (L.states layers.now)) }
    ensures { option_copied result ≡ look (L.states layers.now) (shape plan.now) name.now }
{
    let (_, item) = find_in(layers, plan, name)?;
    Some(item)
}

/// What is seen under the name.
pub fn look_in<'a, L: Layers>(layers: &'a L, plan: &Plan, name: &Name) -> Option<&'a Item>
    requires { IsOver (shape plan.now) (length (L.states layers.now)) }
    ensures { option_copied result ≡ look (L.states layers.now) (shape plan.now) name.now }
{
    seek_in(layers, plan, name.bytes())
}

/// What is seen through a list of plans.
pub fn look_among<'a, L: Layers>(layers: &'a L, plans: &PlanList, name: &Name) -> Option<&'a Item>
    requires { AreOver (shapes plans.now) (length (L.states layers.now)) }
    ensures { option_copied result ≡ look_of (L.states layers.now) (leaves_of (shapes plans.now)) name.now }
{
    let (_, item) = find_among(layers, plans, name.bytes())?;
    Some(item)
}

// Whether a place up to here has the item, and what is seen below the topmost that has it.
#[cycle(below)]
fn below_in<'a, L: Layers>(
    layers: &'a L,
    plan: &Plan,
    name: &Name,
    is_found: bool,
) -> (bool, Option<&'a Item>)
    requires { IsOver (shape plan.now) (length (L.states layers.now)) }
    ensures found { option_copied result.1 ≡ None → result.0 ≡ (is_found || holds_of (L.states layers.now) (leaves (shape plan.now)) name.now) }
    ensures item { option_copied result.1 ≡ (if is_found
        then look_of (L.states layers.now) (leaves (shape plan.now)) name.now
        else look_below_of (L.states layers.now) (leaves (shape plan.now)) name.now) }
{
    match plan {
        Plan::Leaf(place) => below_at(layers, *place, name, is_found),
        Plan::Stack(plans) => below_among(layers, plans, name, is_found),
        Plan::Backup(first, _) => below_in(layers, first, name, is_found),
        Plan::Debug(plan) => below_in(layers, plan, name, is_found),
    }
}

// The same of a list of plans.
#[cycle(below)]
fn below_among<'a, L: Layers>(
    layers: &'a L,
    plans: &PlanList,
    name: &Name,
    is_found: bool,
) -> (bool, Option<&'a Item>)
    requires { AreOver (shapes plans.now) (length (L.states layers.now)) }
    ensures found { option_copied result.1 ≡ None → result.0 ≡ (is_found || holds_of (L.states layers.now) (leaves_of (shapes plans.now)) name.now) }
    ensures item { option_copied result.1 ≡ (if is_found
        then look_of (L.states layers.now) (leaves_of (shapes plans.now)) name.now
        else look_below_of (L.states layers.now) (leaves_of (shapes plans.now)) name.now) }
{
    match plans {
        PlanList::End => (is_found, None),
        PlanList::More(plan, rest) => match below_in(layers, plan, name, is_found) {
            (_, Some(item)) => (true, Some(item)),
            (is_past, None) => below_among(layers, rest, name, is_past),
        },
    }
}

// The same of one place.
fn below_at<'a, L: Layers>(
    layers: &'a L,
    place: usize,
    name: &Name,
    is_found: bool,
) -> (bool, Option<&'a Item>)
    requires { place < length (L.states layers.now) }
    ensures found { result.0 ≡ (is_found || has_of (L.states layers.now) name.now place) }
    ensures item { option_copied result.1 ≡ (if is_found then item_of (L.states layers.now) place name.now else None) }
{
    match layers.item_at(place, name.bytes()) {
        None => (is_found, None),
        Some(item) => {
            if is_found {
                (true, Some(item))
            } else {
                (true, None)
            }
        }
    }
}

/// What is seen below the topmost place that has the item.
pub fn look_below_in<'a, L: Layers>(layers: &'a L, plan: &Plan, name: &Name) -> Option<&'a Item>
    requires { IsOver (shape plan.now) (length (L.states layers.now)) }
    ensures { option_copied result ≡ look_below (L.states layers.now) (shape plan.now) name.now }
{
    let (_, item) = below_in(layers, plan, name, false);
    item
}

/// Whether a place below the topmost that has the item has it too.
pub fn has_below_in<L: Layers>(layers: &L, plan: &Plan, name: &Name) -> bool
    requires { IsOver (shape plan.now) (length (L.states layers.now)) }
    ensures { result ≡ has_below (L.states layers.now) (shape plan.now) name.now }
{
    match look_below_in(layers, plan, name) {
        Some(_) => true,
        None => false,
    }
}

// Adds the places that the plan asks.
#[cycle(places)]
fn add_places(places: &mut Vec<usize>, plan: &Plan) -> Mem<()>
    ensures { OnOk result (places.new.items ≡ places.old.items ++ leaves (shape plan.now)) }
{
    match plan {
        Plan::Leaf(place) => {
            places.push(*place)?;
            Ok(())
        }
        Plan::Stack(plans) => add_all_places(places, plans),
        Plan::Backup(first, _) => add_places(places, first),
        Plan::Debug(plan) => add_places(places, plan),
    }
}

// The same of a list of plans.
#[cycle(places)]
fn add_all_places(places: &mut Vec<usize>, plans: &PlanList) -> Mem<()>
    ensures { OnOk result (places.new.items ≡ places.old.items ++ leaves_of (shapes plans.now)) }
{
    match plans {
        PlanList::End => Ok(()),
        PlanList::More(plan, rest) => {
            add_places(places, plan)?;
            add_all_places(places, rest)
        }
    }
}

/// The places that the plan asks, from the top.
pub fn places_in(alloc: Global, plan: &Plan) -> Mem<Vec<usize>>
    ensures { IfOk result (λ places. places.items ≡ leaves (shape plan.now)) }
{
    let mut places = Vec::new(alloc);
    add_places(&mut places, plan)?;
    Ok(places)
}
