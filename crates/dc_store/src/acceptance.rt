// Which changes and writes through a plan would be taken.
ghost use Rattle.std.specs.Prelude.{◌≡◌, ◌<◌, IfOk, length, false};
ghost use Rattle.std.specs.Option.{option_map_or};
ghost use Rattle.dc_conf.specs.Trees.{shape, shapes};
ghost use Rattle.dc_conf.specs.Plans.{IsOver, AreOver, leaves_of};
ghost use Rattle.dc_item.specs.After.{after_at};
ghost use Rattle.dc_item.specs.declared.op.Op.TheVariants.{Put};
ghost use Rattle.dc_store.specs.Holders.{look_of};
ghost use Rattle.dc_store.specs.Plans.{would_take, first_would_take, can_change, can_change_held};
ghost use Rattle.dc_store.specs.Takes.{takes, takes_held, takes_first, made_takes};

use crate::layers::Layers;
use crate::leaves::{is_put_op, leaf_takes};
use crate::search::{holds_in, look_among};
use dc_conf::plans::{Plan, PlanList};
use dc_item::{After, Effect, Op};
use dc_template::Kind;
use dc_text::{Mem, Name};

#[cycle(take)]
fn takes_in<L: Layers>(
    layers: &L,
    plan: &Plan,
    name: &Name,
    kind: Option<Kind>,
    op: &Op,
) -> Mem<bool>
    requires { IsOver (shape plan.now) (length (L.states layers.now)) }
    ensures { IfOk result (λ is. is ≡ takes (L.states layers.now) (shape plan.now) name.now kind op.now) }
{
    match plan {
        Plan::Leaf(place) => leaf_takes(layers, *place, name, kind, op),
        Plan::Stack(plans) => {
            if takes_held_in(layers, plans, name, kind, op)? {
                return Ok(true);
            }
            takes_above_in(layers, plans, name, kind, op)
        }
        Plan::Backup(first, _) => takes_in(layers, first, name, kind, op),
        Plan::Debug(plan) => takes_in(layers, plan, name, kind, op),
    }
}

#[cycle(take)]
fn takes_held_in<L: Layers>(
    layers: &L,
    plans: &PlanList,
    name: &Name,
    kind: Option<Kind>,
    op: &Op,
) -> Mem<bool>
    requires { AreOver (shapes plans.now) (length (L.states layers.now)) }
    ensures { IfOk result (λ is. is ≡ takes_held (L.states layers.now) (shapes plans.now) name.now kind op.now) }
{
    match plans {
        PlanList::End => Ok(false),
        PlanList::More(plan, rest) => {
            if holds_in(layers, plan, name) {
                takes_in(layers, plan, name, kind, op)
            } else {
                takes_held_in(layers, rest, name, kind, op)
            }
        }
    }
}

#[cycle(take)]
fn takes_above_in<L: Layers>(
    layers: &L,
    plans: &PlanList,
    name: &Name,
    kind: Option<Kind>,
    op: &Op,
) -> Mem<bool>
    requires { AreOver (shapes plans.now) (length (L.states layers.now)) }
    ensures { IfOk result (λ is. is ≡ made_takes (after_at op.now (look_of (L.states layers.now) (leaves_of (shapes plans.now)) name.now))
        (λ put. takes_first (L.states layers.now) (shapes plans.now) name.now kind put)) }
{
    let item = look_among(layers, plans, name);
    if is_put_op(op) {
        return match op.effect(item)? {
            Effect::Same => Ok(true),
            Effect::Gone => Ok(false),
            Effect::Changed => takes_first_in(layers, plans, name, kind, op),
        };
    }
    match op.at(item)? {
        After::Same => Ok(true),
        After::Gone => Ok(false),
        After::Changed(item) => {
            let put = Op::Put(item);
            takes_first_in(layers, plans, name, kind, &put)
        }
    }
}

#[cycle(take)]
fn takes_first_in<L: Layers>(
    layers: &L,
    plans: &PlanList,
    name: &Name,
    kind: Option<Kind>,
    op: &Op,
) -> Mem<bool>
    requires { AreOver (shapes plans.now) (length (L.states layers.now)) }
    ensures { IfOk result (λ is. is ≡ takes_first (L.states layers.now) (shapes plans.now) name.now kind op.now) }
{
    match plans {
        PlanList::End => Ok(false),
        PlanList::More(plan, rest) => {
            if holds_in(layers, plan, name) {
                return Ok(false);
            }
            if takes_in(layers, plan, name, kind, op)? {
                return Ok(true);
            }
            takes_first_in(layers, rest, name, kind, op)
        }
    }
}

/// Whether a write would be taken.
#[tactic(auto, using(crate::proofs::TestLemmas::test_is))]
pub fn would_take_in<L: Layers>(
    layers: &L,
    plan: &Plan,
    name: &Name,
    kind: Option<Kind>,
    op: &Op,
) -> Mem<bool>
    requires { IsOver (shape plan.now) (length (L.states layers.now)) }
    ensures { IfOk result (λ is. is ≡ would_take (L.states layers.now) (shape plan.now) name.now kind op.now) }
{
    match takes_in(layers, plan, name, kind, op) {
        Ok(is) => Ok(is),
        Err(error) => Err(error),
    }
}

/// Whether there is an item that can be changed.
#[cycle(can_change)]
pub fn can_change_in<L: Layers>(
    layers: &L,
    plan: &Plan,
    name: &Name,
    kind: Option<Kind>,
) -> Mem<bool>
    requires { IsOver (shape plan.now) (length (L.states layers.now)) }
    ensures { IfOk result (λ is. is ≡ can_change (L.states layers.now) (shape plan.now) name.now kind) }
{
    match plan {
        Plan::Leaf(place) => {
            Ok(layers.item_at(*place, name.bytes()).is_some() && layers.writable_at(*place))
        }
        Plan::Stack(plans) => {
            if can_change_held_in(layers, plans, name, kind)? {
                return Ok(true);
            }
            takes_copy_in(layers, plans, name, kind)
        }
        Plan::Backup(first, _) => can_change_in(layers, first, name, kind),
        Plan::Debug(plan) => can_change_in(layers, plan, name, kind),
    }
}

// The same of the first child that holds the item.
#[cycle(can_change)]
fn can_change_held_in<L: Layers>(
    layers: &L,
    plans: &PlanList,
    name: &Name,
    kind: Option<Kind>,
) -> Mem<bool>
    requires { AreOver (shapes plans.now) (length (L.states layers.now)) }
    ensures { IfOk result (λ is. is ≡ can_change_held (L.states layers.now) (shapes plans.now) name.now kind) }
{
    match plans {
        PlanList::End => Ok(false),
        PlanList::More(plan, rest) => {
            if holds_in(layers, plan, name) {
                can_change_in(layers, plan, name, kind)
            } else {
                can_change_held_in(layers, rest, name, kind)
            }
        }
    }
}

// Whether a child above the one that holds the item takes it.
#[tactic(auto, using(crate::proofs::TestLemmas::first_test_is))]
fn takes_copy_in<L: Layers>(
    layers: &L,
    plans: &PlanList,
    name: &Name,
    kind: Option<Kind>,
) -> Mem<bool>
    requires { AreOver (shapes plans.now) (length (L.states layers.now)) }
    ensures { IfOk result (λ is. is ≡ option_map_or (λ item. first_would_take (L.states layers.now) (shapes plans.now) name.now kind (Put item))
        (look_of (L.states layers.now) (leaves_of (shapes plans.now)) name.now) false) }
{
    match look_among(layers, plans, name) {
        None => Ok(false),
        Some(item) => {
            let put = Op::Put(item.copy()?);
            takes_first_in(layers, plans, name, kind, &put)
        }
    }
}
