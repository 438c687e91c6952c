// The databases on which a tool works, and the words that name them.
ghost use Rattle.std.specs.Prelude.{◌≡◌, IfOk, IfErr, nat_eq, not};
ghost use Rattle.std.specs.List.{list_any};
ghost use Rattle.dc_conf.specs.Plans.{all_places, all_places_of, are_apart_from, are_disjoint};
ghost use Rattle.dc_conf.specs.Trees.{shape, shapes};
ghost use Rattle.dc_run.specs.Inside.{IsResolvedFor, IsUnresolvedFor, overlap_in, unknown_end};
ghost use Rattle.dc_run.specs.Starting.{IsSomeConfiguration, roots as roots_of, source_of};

use crate::outcome::End;
use dc_cli::Tool;
use dc_conf::{Conf, Plan, PlanList, ResolveError, Resolved};
use dc_text::{List, Mem, Text};
use std::alloc::Global;

/// The databases that the tool reaches, and the plans of its roots. A word that names a wrong database is refused.
pub fn resolve(alloc: Global, used: &Tool, conf: &Conf) -> Result<Resolved, End>
    requires { IsSomeConfiguration conf.now }
    ensures resolved { IfOk result (IsResolvedFor used.now conf.now) }
    ensures wrong { IfErr result (IsUnresolvedFor used.now conf.now) }
{
    let roots = match root_names(alloc, used, conf) {
        Ok(roots) => roots,
        Err(_) => return Err(End::OutOfMemory),
    };
    match conf.resolve(alloc, &roots) {
        Ok(resolved) => match overlap_at(used, resolved.plans.as_slice()) {
            None => Ok(resolved),
            Some(word) => Err(End::Usage { word }),
        },
        Err(ResolveError::Unknown { root }) => Err(end_of_unknown(used, root)),
        Err(ResolveError::OutOfMemory) => Err(End::OutOfMemory),
    }
}

// The names of the roots.
fn root_names(alloc: Global, used: &Tool, conf: &Conf) -> Mem<List<Text>>
    ensures { IfOk result (λ roots. roots ≡ roots_of used.now conf.now) }
{
    let mut roots = List::new(alloc);
    roots.push(source_name(used, conf).copy()?)?;
    roots.push(conf.templates().copy()?)?;
    if let Tool::CopyDb(copy) = used {
        roots.push(copy.dest.word.copy()?)?;
    }
    Ok(roots)
}

// The name of the database in which a tool finds questions, or from which it copies.
fn source_name<'u>(used: &'u Tool, conf: &'u Conf) -> &'u Text
    ensures { result.now ≡ source_of used.now conf.now }
{
    match used {
        Tool::CopyDb(copy) => &copy.source.word,
        Tool::Show {
            database: Some(database),
            shown: _,
        } => &database.word,
        _ => conf.config(),
    }
}

// The end of a run whose root at this place is unknown. Those of the configuration itself are none of them.
fn end_of_unknown(used: &Tool, root: usize) -> End
    ensures { result ≡ unknown_end used.now root }
{
    match used {
        Tool::CopyDb(copy) => match root {
            0 => End::Usage {
                word: copy.source.place,
            },
            2 => End::Usage {
                word: copy.dest.place,
            },
            _ => End::OutOfMemory,
        },
        Tool::Show {
            database: Some(database),
            shown: _,
        } if root == 0 => End::Usage {
            word: database.place,
        },
        _ => End::OutOfMemory,
    }
}

// The place of the word for the destination of a copy, where it shares a database with the source.
fn overlap_at(used: &Tool, plans: &[Plan]) -> Option<usize>
    ensures { result ≡ overlap_in used.now plans.now }
{
    match (used, plans) {
        (Tool::CopyDb(copy), [source, _, dest]) if share(source, dest) => Some(copy.dest.place),
        _ => None,
    }
}

// Whether two plans share a database.
#[cycle(share)]
fn share(one: &Plan, other: &Plan) -> bool
    ensures { result ≡ not (are_disjoint (shape one.now) (shape other.now)) }
{
    match one {
        Plan::Leaf(place) => has_place(other, *place),
        Plan::Stack(plans) => some_share(plans, other),
        Plan::Backup(first, second) => share(first, other) || share(second, other),
        Plan::Debug(plan) => share(plan, other),
    }
}

// Whether one of the plans shares a database with another plan.
#[cycle(share)]
fn some_share(plans: &PlanList, other: &Plan) -> bool
    ensures { result ≡ not (are_apart_from (all_places_of (shapes plans.now)) (all_places (shape other.now))) }
{
    match plans {
        PlanList::End => false,
        PlanList::More(plan, rest) => share(plan, other) || some_share(rest, other),
    }
}

// Whether the plan speaks of the place.
#[cycle(speak)]
fn has_place(plan: &Plan, place: usize) -> bool
    ensures { result ≡ list_any (nat_eq place) (all_places (shape plan.now)) }
{
    match plan {
        Plan::Leaf(one) => place == *one,
        Plan::Stack(plans) => some_have_place(plans, place),
        Plan::Backup(first, second) => has_place(first, place) || has_place(second, place),
        Plan::Debug(plan) => has_place(plan, place),
    }
}

// Whether one of the plans does.
#[cycle(speak)]
fn some_have_place(plans: &PlanList, place: usize) -> bool
    ensures { result ≡ list_any (nat_eq place) (all_places_of (shapes plans.now)) }
{
    match plans {
        PlanList::End => false,
        PlanList::More(plan, rest) => has_place(plan, place) || some_have_place(rest, place),
    }
}
