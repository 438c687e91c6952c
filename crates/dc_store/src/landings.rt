// Where an item lands that is put.
ghost use Rattle.std.specs.Prelude.{◌≡◌, ◌<◌, Some, None, IfOk, length, if◌then◌else◌};
ghost use Rattle.std.specs.List.{find};
ghost use Rattle.dc_conf.specs.Trees.{shape, shapes};
ghost use Rattle.dc_conf.specs.Plans.{IsOver, AreOver, leaves, leaves_of};
ghost use Rattle.dc_store.specs.Targets.{is_plain as plain_of, are_plain as plain_of_all};
ghost use Rattle.dc_store.specs.Writes.{is_writable_at, takes_at, put_target};

use crate::layers::Layers;
use crate::search::find_in;
use dc_conf::plans::{Plan, PlanList};
use dc_template::Kind;
use dc_text::{Mem, Name};

/// Whether the plan keeps no backup and tells nothing.
#[cycle(plain)]
pub fn is_plain(plan: &Plan) -> bool
    ensures { result ≡ plain_of (shape plan.now) }
{
    match plan {
        Plan::Leaf(_) => true,
        Plan::Stack(plans) => are_plain(plans),
        Plan::Backup(_, _) => false,
        Plan::Debug(_) => false,
    }
}

#[cycle(plain)]
fn are_plain(plans: &PlanList) -> bool
    ensures { result ≡ plain_of_all (shapes plans.now) }
{
    match plans {
        PlanList::End => true,
        PlanList::More(plan, rest) => is_plain(plan) && are_plain(rest),
    }
}

// The topmost place of the plan that takes a new item.
#[cycle(home)]
fn home_in<L: Layers>(
    layers: &L,
    plan: &Plan,
    name: &Name,
    kind: Option<Kind>,
) -> Mem<Option<usize>>
    requires { IsOver (shape plan.now) (length (L.states layers.now)) }
    ensures { IfOk result (λ place. place ≡ find (takes_at (L.states layers.now) name.now kind) (leaves (shape plan.now))) }
{
    match plan {
        Plan::Leaf(place) => {
            if layers.takes_at(*place, name, kind)? {
                Ok(Some(*place))
            } else {
                Ok(None)
            }
        }
        Plan::Stack(plans) => home_among(layers, plans, name, kind),
        Plan::Backup(first, _) => home_in(layers, first, name, kind),
        Plan::Debug(plan) => home_in(layers, plan, name, kind),
    }
}

#[cycle(home)]
fn home_among<L: Layers>(
    layers: &L,
    plans: &PlanList,
    name: &Name,
    kind: Option<Kind>,
) -> Mem<Option<usize>>
    requires { AreOver (shapes plans.now) (length (L.states layers.now)) }
    ensures { IfOk result (λ place. place ≡ find (takes_at (L.states layers.now) name.now kind) (leaves_of (shapes plans.now))) }
{
    match plans {
        PlanList::End => Ok(None),
        PlanList::More(plan, rest) => match home_in(layers, plan, name, kind)? {
            Some(place) => Ok(Some(place)),
            None => home_among(layers, rest, name, kind),
        },
    }
}

// The place of the holder, if that is writable.
fn open_place<L: Layers>(layers: &L, place: usize) -> Option<usize>
    requires { place < length (L.states layers.now) }
    ensures { result ≡ (if is_writable_at (L.states layers.now) place then Some place else None) }
{
    match layers.writable_at(place) {
        true => Some(place),
        false => None,
    }
}

/// The place where an item that is put lands as it is.
pub fn landing_in<L: Layers>(
    layers: &L,
    plan: &Plan,
    name: &Name,
    kind: Option<Kind>,
) -> Mem<Option<usize>>
    requires { IsOver (shape plan.now) (length (L.states layers.now)) }
    ensures { IfOk result (λ place. place ≡ put_target (L.states layers.now) (leaves (shape plan.now)) name.now kind) }
{
    match find_in(layers, plan, name.bytes()) {
        None => home_in(layers, plan, name, kind),
        Some((place, _)) => Ok(open_place(layers, place)),
    }
}
