// Writes through a plan.
ghost use Rattle.std.specs.Prelude.{◌≡◌, Option, Some, None, Ok, Err, IfOk, OnErr, OnOk, true, false, length};
ghost use Rattle.dc_conf.specs.Trees.{shape, shapes};
ghost use Rattle.dc_conf.specs.Plans.{IsOver, AreOver, leaves_of};
ghost use Rattle.dc_item.specs.After.{after_at};
ghost use Rattle.dc_store.specs.Holders.{look_of};
ghost use Rattle.dc_store.specs.Plans.{stored, write, write_held, write_first, put_above, backup_op as op_of, holds, look};
ghost use Rattle.dc_store.specs.StoreLaws.{AreSameBut};
ghost use Rattle.dc_template.specs.declared.kinds.Kind.{Kind as KindOf};

use crate::layers::Layers;
use crate::leaves::{is_put_op, write_leaf, write_leaf_on_top};
use crate::search::{holds_in, look_among, look_in};
use crate::store::StoreError;
use crate::telling::tell;
use dc_conf::plans::{Plan, PlanList};
use dc_item::{After, Effect, Op};
use dc_template::Kind;
use dc_text::{Mem, Name, Text};
use std::alloc::Global;

// What is written to the second plan of a backup, by what the first plan and the second have.
fn backup_op<L: Layers>(layers: &L, first: &Plan, second: &Plan, name: &Name) -> Mem<Option<Op>>
    requires first { IsOver (shape first.now) (length (L.states layers.now)) }
    requires second { IsOver (shape second.now) (length (L.states layers.now)) }
    ensures { IfOk result (λ op. op ≡ op_of (look (L.states layers.now) (shape first.now) name.now) (look (L.states layers.now) (shape second.now) name.now)) }
{
    match look_in(layers, first, name) {
        Some(item) => Ok(Some(Op::Put(item.copy()?))),
        None => match look_in(layers, second, name) {
            Some(kept) => Ok(Some(Op::DropOwners(kept.owner_names()?))),
            None => Ok(None),
        },
    }
}

/// Writes to what a plan speaks of. `Refused` comes exactly where the plan refuses, and then nothing changed.
#[cycle(write)]
pub fn write_in<L: Layers>(
    alloc: Global,
    layers: &mut L,
    told: &mut Text,
    plan: &Plan,
    name: &Name,
    kind: Option<Kind>,
    op: &Op,
) -> Result<(), StoreError>
    requires { IsOver (shape plan.now) (length (L.states layers.old)) }
    ensures ok { OnOk result (write (stored (L.states layers.old) told.old) (shape plan.now) name.now kind op.now ≡ Some (stored (L.states layers.new) told.new)) }
    ensures refused { result ≡ Err StoreError.Refused → write (stored (L.states layers.old) told.old) (shape plan.now) name.now kind op.now ≡ None }
    ensures unchanged { result ≡ Err StoreError.Refused → stored (L.states layers.new) told.new ≡ stored (L.states layers.old) told.old }
    ensures others { AreSameBut name.now (L.states layers.old) (L.states layers.new) }
    ensures count { length (L.states layers.new) ≡ length (L.states layers.old) }
{
    match plan {
        Plan::Leaf(place) => write_leaf(layers, *place, name, kind, op),
        Plan::Stack(plans) => match write_held_in(alloc, layers, told, plans, name, kind, op) {
            Ok(()) => Ok(()),
            Err(StoreError::OutOfMemory) => Err(StoreError::OutOfMemory),
            Err(StoreError::Refused) => write_above_in(alloc, layers, told, plans, name, kind, op),
        },
        Plan::Backup(first, second) => {
            write_in(alloc, layers, told, first, name, kind, op)?;
            match backup_op(layers, first, second, name)? {
                None => Ok(()),
                Some(op) => match write_in(alloc, layers, told, second, name, kind, &op) {
                    Ok(()) => Ok(()),
                    Err(StoreError::Refused) => Ok(()),
                    Err(StoreError::OutOfMemory) => Err(StoreError::OutOfMemory),
                },
            }
        }
        Plan::Debug(plan) => {
            write_in(alloc, layers, told, plan, name, kind, op)?;
            tell(alloc, told, op, name)?;
            Ok(())
        }
    }
}

// Writes to the first child that holds the item.
#[cycle(write)]
fn write_held_in<L: Layers>(
    alloc: Global,
    layers: &mut L,
    told: &mut Text,
    plans: &PlanList,
    name: &Name,
    kind: Option<Kind>,
    op: &Op,
) -> Result<(), StoreError>
    requires { AreOver (shapes plans.now) (length (L.states layers.old)) }
    ensures ok { OnOk result (write_held (stored (L.states layers.old) told.old) (shapes plans.now) name.now kind op.now ≡ Some (stored (L.states layers.new) told.new)) }
    ensures refused { result ≡ Err StoreError.Refused → write_held (stored (L.states layers.old) told.old) (shapes plans.now) name.now kind op.now ≡ None }
    ensures unchanged { result ≡ Err StoreError.Refused → stored (L.states layers.new) told.new ≡ stored (L.states layers.old) told.old }
    ensures others { AreSameBut name.now (L.states layers.old) (L.states layers.new) }
    ensures count { length (L.states layers.new) ≡ length (L.states layers.old) }
{
    match plans {
        PlanList::End => Err(StoreError::Refused),
        PlanList::More(plan, rest) => {
            if holds_in(layers, plan, name) {
                write_in(alloc, layers, told, plan, name, kind, op)
            } else {
                write_held_in(alloc, layers, told, rest, name, kind, op)
            }
        }
    }
}

// Puts what the operation makes of the item that is seen to the first child that takes it, of those above the one that holds it. An
// item that is put is put as it is.
#[cycle(write)]
fn write_above_in<L: Layers>(
    alloc: Global,
    layers: &mut L,
    told: &mut Text,
    plans: &PlanList,
    name: &Name,
    kind: Option<Kind>,
    op: &Op,
) -> Result<(), StoreError>
    requires { AreOver (shapes plans.now) (length (L.states layers.old)) }
    ensures ok { OnOk result (put_above (stored (L.states layers.old) told.old) (after_at op.now (look_of (L.states layers.old) (leaves_of (shapes plans.now)) name.now))
        (λ put. write_first (stored (L.states layers.old) told.old) (shapes plans.now) name.now kind put) ≡ Some (stored (L.states layers.new) told.new)) }
    ensures refused { result ≡ Err StoreError.Refused
        → put_above (stored (L.states layers.old) told.old) (after_at op.now (look_of (L.states layers.old) (leaves_of (shapes plans.now)) name.now))
        (λ put. write_first (stored (L.states layers.old) told.old) (shapes plans.now) name.now kind put) ≡ None }
    ensures unchanged { result ≡ Err StoreError.Refused → stored (L.states layers.new) told.new ≡ stored (L.states layers.old) told.old }
    ensures others { AreSameBut name.now (L.states layers.old) (L.states layers.new) }
    ensures count { length (L.states layers.new) ≡ length (L.states layers.old) }
{
    let item = look_among(layers, plans, name);
    if is_put_op(op) {
        return match op.effect(item)? {
            Effect::Same => Ok(()),
            Effect::Gone => Err(StoreError::Refused),
            Effect::Changed => write_first_in(alloc, layers, told, plans, name, kind, op),
        };
    }
    match op.at(item)? {
        After::Same => Ok(()),
        After::Gone => Err(StoreError::Refused),
        After::Changed(item) => {
            let put = Op::Put(item);
            write_first_in(alloc, layers, told, plans, name, kind, &put)
        }
    }
}

// Writes to the first child that takes the operation, of those above the one that holds an item.
#[cycle(write)]
fn write_first_in<L: Layers>(
    alloc: Global,
    layers: &mut L,
    told: &mut Text,
    plans: &PlanList,
    name: &Name,
    kind: Option<Kind>,
    op: &Op,
) -> Result<(), StoreError>
    requires { AreOver (shapes plans.now) (length (L.states layers.old)) }
    ensures ok { OnOk result (write_first (stored (L.states layers.old) told.old) (shapes plans.now) name.now kind op.now ≡ Some (stored (L.states layers.new) told.new)) }
    ensures refused { result ≡ Err StoreError.Refused → write_first (stored (L.states layers.old) told.old) (shapes plans.now) name.now kind op.now ≡ None }
    ensures unchanged { result ≡ Err StoreError.Refused → stored (L.states layers.new) told.new ≡ stored (L.states layers.old) told.old }
    ensures others { AreSameBut name.now (L.states layers.old) (L.states layers.new) }
    ensures count { length (L.states layers.new) ≡ length (L.states layers.old) }
{
    match plans {
        PlanList::End => Err(StoreError::Refused),
        PlanList::More(plan, rest) => {
            if holds_in(layers, plan, name) {
                return Err(StoreError::Refused);
            }
            match write_in(alloc, layers, told, plan, name, kind, op) {
                Err(StoreError::Refused) => {
                    write_first_in(alloc, layers, told, rest, name, kind, op)
                }
                Err(StoreError::OutOfMemory) => Err(StoreError::OutOfMemory),
                Ok(()) => Ok(()),
            }
        }
    }
}

/// Tries a change on the topmost of the places alone, and answers whether it was done there: the layer is writable and has the item,
/// and then it is the write of an item of any kind. Where it isn't, all layers stay, and nothing is told. A backup is never written so.
pub fn write_on_top<L: Layers>(
    alloc: Global,
    layers: &mut L,
    told: &mut Text,
    plan: &Plan,
    name: &Name,
    op: &Op,
) -> Mem<bool>
    requires { IsOver (shape plan.now) (length (L.states layers.old)) }
    ensures there { result ≡ Ok true → holds (L.states layers.old) (shape plan.now) name.now ≡ true }
    ensures done { result ≡ Ok true → (kind : Option KindOf)
        → write (stored (L.states layers.old) told.old) (shape plan.now) name.now kind op.now ≡ Some (stored (L.states layers.new) told.new) }
    ensures not_done { result ≡ Ok false → stored (L.states layers.new) told.new ≡ stored (L.states layers.old) told.old }
    ensures others { AreSameBut name.now (L.states layers.old) (L.states layers.new) }
    ensures count { length (L.states layers.new) ≡ length (L.states layers.old) }
{
    match plan {
        Plan::Leaf(place) => write_leaf_on_top(layers, *place, name, op),
        Plan::Stack(plans) => match plans {
            PlanList::End => Ok(false),
            PlanList::More(plan, _) => write_on_top(alloc, layers, told, plan, name, op),
        },
        Plan::Backup(_, _) => Ok(false),
        Plan::Debug(plan) => {
            if !write_on_top(alloc, layers, told, plan, name, op)? {
                return Ok(false);
            }
            tell(alloc, told, op, name)?;
            Ok(true)
        }
    }
}
