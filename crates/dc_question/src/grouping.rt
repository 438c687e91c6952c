// Pairs of names by their first.
ghost use Rattle.std.specs.Prelude.{◌≡◌, ◌∷◌, ◌++◌, [], ℕ, List as Listed, IfOk, OnOk, map as each};
ghost use Rattle.dc_question.specs.Losses.{behind as behind_of, grouped as grouped_of, held_at};

use crate::beside::only;
use dc_item::in_order;
use dc_text::{List, Mem, Name, TextMap};
use std::alloc::Global;

/// Each first name of the pairs, in byte order, with those that stand behind it.
pub fn grouped(alloc: Global, pairs: &[(Name, Name)]) -> Mem<List<(Name, List<Name>)>>
    ensures { IfOk result (λ groups. groups ≡ grouped_of pairs.now) }
{
    let firsts = firsts(alloc, pairs)?;
    let held = by_first(alloc, pairs)?;
    grouped_by(alloc, in_order(alloc, firsts)?.as_slice(), &held)
}

// Each of the names with those that are held at it.
fn grouped_by(
    alloc: Global,
    firsts: &[Name],
    held: &TextMap<List<Name>>,
) -> Mem<List<(Name, List<Name>)>>
    ensures { IfOk result (λ groups. groups ≡ each (λ t. (t, held_at held.now t)) firsts.now) }
{
    let mut groups = List::new(alloc);
    for first in firsts {
        groups.push((first.copy()?, at(alloc, held, first)?))?;
    }
    Ok(groups)
}

fn firsts(alloc: Global, pairs: &[(Name, Name)]) -> Mem<List<Name>>
    ensures { IfOk result (λ names. names ≡ each (λ p. p.0) pairs.now) }
{
    let mut names = List::new(alloc);
    for pair in pairs {
        names.push(pair.0.copy()?)?;
    }
    Ok(names)
}

// The names that are held at a name.
fn at(alloc: Global, held: &TextMap<List<Name>>, first: &Name) -> Mem<List<Name>>
    ensures { IfOk result (λ names. names ≡ held_at held.now first.now) }
{
    match held.get(first.bytes()) {
        None => Ok(List::new(alloc)),
        Some(names) => names.copy(),
    }
}

// The names that stand behind each first name of the pairs, held at it.
fn by_first(alloc: Global, pairs: &[(Name, Name)]) -> Mem<TextMap<List<Name>>>
    ensures { IfOk result (λ held. (t : Listed ℕ) → held_at held t ≡ behind_of t pairs.now) }
{
    let mut held = TextMap::new(alloc);
    for pair in pairs {
        add_behind(alloc, &mut held, &pair.0, &pair.1)?;
    }
    Ok(held)
}

// Adds a name to those that are held at the first.
fn add_behind(alloc: Global, held: &mut TextMap<List<Name>>, first: &Name, name: &Name) -> Mem<()>
    ensures { OnOk result ((t : Listed ℕ) → held_at held.new t ≡ held_at held.old t ++ behind_of t ((first.now, name.now) ∷ [])) }
{
    if !held.contains(first.bytes()) {
        held.insert(first.copy()?.into_text(), only(alloc, name)?)?;
        return Ok(());
    }
    let mut names = held.replace(first.bytes(), List::new(alloc));
    names.push(name.copy()?)?;
    held.replace(first.bytes(), names);
    Ok(())
}
