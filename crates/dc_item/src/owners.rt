// Owners, and names in byte order.
ghost use Rattle.std.specs.Prelude.{◌≡◌, IfOk, true};
ghost use Rattle.std.specs.List.{list_all};
ghost use Rattle.std.specs.FinMap as map;
ghost use Rattle.dc_text.specs.Bytes.{is_nil};
ghost use Rattle.dc_text.specs.Maps.{set_of};
ghost use Rattle.dc_text.specs.Names.{is_name};
ghost use Rattle.dc_item.specs.After.{left_of};
ghost use Rattle.dc_item.specs.Item.{selves};
ghost use Rattle.dc_item.specs.Owners.{owners_left};
ghost use Rattle.dc_item.specs.Sections.{keys_under, owners_mark};
ghost use Rattle.dc_parts.specs.Entries.{entries_left};

use crate::marks::{OWNERS, has_mark, unmarked};
use dc_parts::Entries;
use dc_text::{List, Mem, Name, OutOfMemory, TextMap};
use std::alloc::Global;

/// The names in byte order, each of them once. A list of at most one is handed back.
pub fn in_order(alloc: Global, names: List<Name>) -> Mem<List<Name>>
    ensures value { IfOk result (λ list. list ≡ map.keys (set_of names)) }
    ensures names { IfOk result (λ list. list_all is_name list ≡ true) }
{
    match names.as_slice() {
        [] => Ok(names),
        [first] => {
            let _name = first.bytes();
            Ok(names)
        }
        _ => sorted(alloc, &names),
    }
}

fn sorted(alloc: Global, names: &List<Name>) -> Mem<List<Name>>
    ensures value { IfOk result (λ list. list ≡ map.keys (set_of names.now)) }
    ensures names { IfOk result (λ list. list_all is_name list ≡ true) }
{
    let held = by_name(alloc, names)?;
    let mut list = List::new(alloc);
    for (_, name) in held.iter() {
        list.push(name.copy()?)?;
    }
    Ok(list)
}

fn by_name(alloc: Global, names: &List<Name>) -> Mem<TextMap<Name>>
    ensures { IfOk result (λ held. map.entries held ≡ selves (map.keys (set_of names.now))) }
{
    let mut held = TextMap::new(alloc);
    for name in names.as_slice() {
        held.insert(name.copy()?.into_text(), name.copy()?)?;
    }
    Ok(held)
}

fn named(alloc: Global, names: &List<Name>) -> Mem<TextMap<()>>
    ensures { IfOk result (λ set. set ≡ set_of names.now) }
{
    let mut set = TextMap::new(alloc);
    for name in names.as_slice() {
        set.insert(name.copy()?.into_text(), ())?;
    }
    Ok(set)
}

/// The owners of an item, in byte order. To go over them takes no memory.
#[derive(Drop)]
pub struct Owners<'a> {
    entries: Entries<'a>,
}

impl<'a> Owners<'a> {
    /// Those among the entries of an item.
    pub(crate) fn among(entries: Entries<'a>) -> Self
        ensures { owners_left result ≡ keys_under owners_mark (entries_left entries.entry) }
    {
        Owners { entries }
    }
}

impl<'a> Iterator for Owners<'a> {
    ghost use Rattle.std.specs.Iterator.{YieldsFirstRef, item_count};
    ghost use Rattle.dc_item.specs.Owners.{owners_left};

    type Item = &'a [u8];

    ghost next_gives = { YieldsFirstRef owners_left };

    ghost remaining = { item_count owners_left };

    #[tactic(auto, using(crate::proofs::OwnerLemmas::owner_here, crate::proofs::OwnerLemmas::no_owner))]
    fn next(&mut self) -> Option<&'a [u8]> {
        while let Some((key, _)) = self.entries.next() {
            if has_mark(OWNERS, key) {
                return Some(unmarked(key));
            }
        }
        None
    }
}

/// The owners as names.
pub(crate) fn names_of(alloc: Global, owners: Owners) -> Mem<List<Name>>
    requires { list_all is_name (owners_left owners) ≡ true }
    ensures { IfOk result (λ names. names ≡ owners_left owners.entry) }
{
    let mut names = List::new(alloc);
    for owner in owners {
        names.push(name_of(alloc, owner)?)?;
    }
    Ok(names)
}

/// The name that the bytes are. They are one, so that nothing but memory fails.
pub(crate) fn name_of(alloc: Global, bytes: &[u8]) -> Mem<Name>
    requires { is_name bytes.now ≡ true }
    ensures { IfOk result (λ name. name ≡ bytes.now) }
{
    match Name::read(alloc, bytes) {
        Ok(name) => Ok(name),
        Err(_) => Err(OutOfMemory),
    }
}

/// Whether the list names all owners.
pub(crate) fn are_all_named(alloc: Global, owners: Owners, names: &List<Name>) -> Mem<bool>
    ensures { IfOk result (λ are. are ≡ is_nil (left_of (owners_left owners.entry) names.now)) }
{
    let set = named(alloc, names)?;
    for owner in owners {
        if !set.contains(owner) {
            return Ok(false);
        }
    }
    Ok(true)
}
