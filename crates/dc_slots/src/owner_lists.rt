// The lists of slots that owners have, each linked from its first link to its last.
ghost use Rattle.std.specs.Prelude.{◌≡◌, ◌≢◌, ◌∷◌, ◌++◌, ℕ, [], true, false, None, Some, is_some, IsSome, option_map, OnOk, OnErr, MatchOption, nat_eq, slice_set};
ghost use Rattle.std.specs.List.{IsDistinct};
ghost use Rattle.std.specs.FinMap as map;
ghost use Rattle.dc_slots.specs.Chains.{has, IsWalk};
ghost use Rattle.dc_slots.specs.Slots.{list_of, with_at, without, if_any};
ghost use Rattle.dc_slots.specs.Links.{link_at, next_in, links_from, linked, list_between, IsJoined, IsFound, IsUnlinked, first_after as first_of, last_after as last_of};
ghost use Rattle.dc_slots.specs.declared.owner_lists.OwnerList.{OwnerList as Listed};

#[cfg(test)]
pub(crate) mod tests;

use crate::slot_vector::SlotNumber;
use dc_text::{Mem, Name, TextMap};
use slab::Slab;
use std::alloc::Global;
use std::marker::Model;

/// The number of a link.
#[derive(Clone, Copy)]
pub(crate) struct LinkNumber {
    number: usize,
}

impl Model for LinkNumber {
    ghost use Rattle.std.specs.Prelude.{ℕ};

    ghost Value = { ℕ };

    ghost view = { λ n. n.number };

    ghost inverse = { λ n. record { number = n } };
}

/// A slot that an owner has.
#[derive(Drop)]
struct Link {
    slot: SlotNumber,
    next: Option<LinkNumber>,
}

/// The first and the last link of an owner.
#[derive(Clone, Copy)]
struct OwnerList {
    first: LinkNumber,
    last: LinkNumber,
}

/// Where a link stands in a list.
#[derive(Clone, Copy)]
struct Place {
    before: Option<LinkNumber>,
    number: LinkNumber,
}

/// The slots of each owner. An owner without one has no list.
#[derive(Drop)]
pub(crate) struct OwnerLists {
    links: Slab<Link>,
    lists: TextMap<OwnerList>,
}

impl Model for OwnerLists {
    ghost use Rattle.std.specs.Prelude.{List, ℕ};
    ghost use Rattle.std.specs.FinMap as map;
    ghost use Rattle.std.specs.Coded.{coded_ℕ, coded_list};
    ghost use Rattle.dc_text.specs.Maps.{Texts};

    ghost Value = { Texts (List ℕ) };

    ghost coded = { map.code (coded_list coded_ℕ) (coded_list coded_ℕ) };

    ghost use Rattle.dc_slots.specs.Links.{slots_by_owner, AreLinked};

    ghost view = { λ o. slots_by_owner o.links.slots (map.entries o.lists) };

    ghost invariant = { λ o. AreLinked o.links.slots o.lists };
}

impl OwnerLists {
    /// No owner.
    pub(crate) fn new(alloc: Global) -> Self
        ensures { result ≡ map.empty }
    {
        OwnerLists {
            links: Slab::new(alloc),
            lists: TextMap::new(alloc),
        }
    }

    /// Whether the owner has the slot.
    pub(crate) fn has(&self, owner: &Name, slot: SlotNumber) -> bool
        ensures { result ≡ has slot (list_of self.now owner.now) }
    {
        match self.lists.get(owner.bytes()) {
            Some(list) => place_of(&self.links, list.first, slot).is_some(),
            None => false,
        }
    }

    /// The slots of the owner, in their order.
    pub(crate) fn owned(&self, owner: &Name) -> OwnedSlots<'_>
        ensures slots { result ≡ list_of self.now owner.now }
        ensures distinct { IsDistinct nat_eq (list_of self.now owner.now) }
    {
        OwnedSlots {
            links: &self.links,
            next: first_of_list(&self.lists, owner),
        }
    }

    /// Puts the slot, which the owner hasn't, at the end of the owner's list.
    pub(crate) fn join(&mut self, owner: &Name, slot: SlotNumber) -> Mem<()>
        requires { has slot (list_of self.old owner.now) ≡ false }
        ensures ok { OnOk result (self.new ≡ map.insert self.old owner.now (list_of self.old owner.now ++ slot ∷ [])) }
        ensures err { OnErr result (self.new ≡ self.old) }
    {
        join_list(&mut self.links, &mut self.lists, owner, slot)?;
        Ok(())
    }

    /// Takes the slot out of the owner's list. It answers whether it was there.
    pub(crate) fn leave(&mut self, owner: &Name, slot: SlotNumber) -> bool
        ensures found { result ≡ has slot (list_of self.old owner.now) }
        ensures same { result ≡ false → self.new ≡ self.old }
        ensures new { self.new ≡ with_at self.old owner.now (if_any (without nat_eq (list_of self.old owner.now) slot)) }
    {
        let Some(list) = self.lists.get(owner.bytes()) else {
            return false;
        };
        let list = *list;
        let Some(place) = place_of(&self.links, list.first, slot) else {
            return false;
        };
        let next = unlink(&mut self.links, &place);
        let first = first_after(place.before, &next, list.first);
        let last = last_after(place.before, &next, list.last);
        set_list(&mut self.lists, owner, first, last);
        true
    }
}

/// The slots that are left of a walk of an owner's list, in their order.
#[derive(Drop)]
pub(crate) struct OwnedSlots<'a> {
    links: &'a Slab<Link>,
    next: Option<LinkNumber>,
}

impl<'a> Model for OwnedSlots<'a> {
    ghost use Rattle.std.specs.Prelude.{List, ℕ};

    ghost Value = { List ℕ };

    ghost use Rattle.dc_slots.specs.Links.{slots_from, AreWalked};

    ghost view = { λ w. slots_from w.links.now.slots w.next };

    ghost invariant = { λ w. AreWalked w.links.now.slots w.next };
}

impl<'a> OwnedSlots<'a> {
    /// The first slot that is left, which is left no more.
    pub(crate) fn step(&mut self) -> Option<SlotNumber>
        ensures { MatchOption result ((self.old ≡ []) × (self.new ≡ [])) (λ slot. self.old ≡ slot ∷ self.new) }
    {
        let number = self.next?;
        let links = self.links;
        let link = &links[number.number];
        self.next = link.next;
        Some(link.slot)
    }
}

// The first link of the owner's list.
fn first_of_list(lists: &TextMap<OwnerList>, owner: &Name) -> Option<LinkNumber>
    ensures { result ≡ option_map (λ l. l.first) (map.get lists.now owner.now) }
{
    match lists.get(owner.bytes()) {
        Some(list) => Some(list.first),
        None => None,
    }
}

// Puts a link for the slot behind the last one of the owner.
fn join_list(
    links: &mut Slab<Link>,
    lists: &mut TextMap<OwnerList>,
    owner: &Name,
    slot: SlotNumber,
) -> Mem<()>
    requires { (l : Listed) → map.get lists.old owner.now ≡ Some l → IsSome (link_at links.old.slots l.last) }
    ensures ok { OnOk result (IsJoined links.old.slots links.new.slots lists.old lists.new owner.now slot) }
    ensures err { OnErr result ((links.new.slots ≡ links.old.slots) × (lists.new ≡ lists.old)) }
{
    match lists.get(owner.bytes()) {
        Some(list) => {
            let list = *list;
            let number = links.insert(Link { slot, next: None })?;
            let last = LinkNumber { number };
            link_over(links, Some(list.last), &Some(last));
            let _ = lists.replace(
                owner.bytes(),
                OwnerList {
                    first: list.first,
                    last,
                },
            );
            Ok(())
        }
        None => {
            let key = owner.copy()?.into_text();
            links.reserve(1)?;
            let only = LinkNumber {
                number: links.vacant_key(),
            };
            lists.insert(
                key,
                OwnerList {
                    first: only,
                    last: only,
                },
            )?;
            links.insert_reserved(Link { slot, next: None });
            Ok(())
        }
    }
}

// Where the slot's link stands among the links from this one on, if it is there.
fn place_of(links: &Slab<Link>, first: LinkNumber, slot: SlotNumber) -> Option<Place>
    requires walks { IsWalk (next_in links.now.slots) (Some first) (links_from links.now.slots (Some first)) }
    requires kept { (n : ℕ) → has n (links_from links.now.slots (Some first)) ≡ true → IsSome (link_at links.now.slots n) }
    ensures { IsFound links.now.slots (Some first) slot result }
{
    let mut before = None;
    let mut at = Some(first);
    while let Some(number) = at {
        let link = &links[number.number];
        if link.slot.is(slot) {
            return Some(Place { before, number });
        }
        before = at;
        at = link.next;
    }
    None
}

// Takes the link away, and lets the one before it, if there is one, name the next. It answers the next.
fn unlink(links: &mut Slab<Link>, place: &Place) -> Option<LinkNumber>
    requires kept { IsSome (link_at links.old.slots place.now.number) }
    requires before { MatchOption place.now.before Unit (λ b. IsSome (link_at links.old.slots b) × (b ≢ place.now.number)) }
    ensures next { result ≡ next_in links.old.slots place.now.number }
    ensures unlinked { IsUnlinked links.old.slots links.new.slots place.now.before place.now.number }
{
    let next = links.remove(place.number.number).next;
    link_over(links, place.before, &next);
    next
}

// Lets the link, if there is one, name the next.
fn link_over(links: &mut Slab<Link>, link: Option<LinkNumber>, next: &Option<LinkNumber>)
    requires { MatchOption link Unit (λ l. IsSome (link_at links.old.slots l)) }
    ensures { links.new.slots ≡ linked links.old.slots link next.now }
{
    if let Some(link) = link {
        links[link.number].next = *next;
    }
}

fn first_after(
    before: Option<LinkNumber>,
    next: &Option<LinkNumber>,
    first: LinkNumber,
) -> Option<LinkNumber>
    ensures { result ≡ first_of before next.now first }
{
    match before {
        Some(_) => Some(first),
        None => *next,
    }
}

fn last_after(
    before: Option<LinkNumber>,
    next: &Option<LinkNumber>,
    last: LinkNumber,
) -> Option<LinkNumber>
    ensures { result ≡ last_of before next.now last }
{
    match next {
        Some(_) => Some(last),
        None => before,
    }
}

// Gives the owner the list from the one link to the other, or none.
fn set_list(
    lists: &mut TextMap<OwnerList>,
    owner: &Name,
    first: Option<LinkNumber>,
    last: Option<LinkNumber>,
)
    requires { IsSome (map.get lists.old owner.now) }
    ensures { lists.new ≡ with_at lists.old owner.now (list_between first last) }
{
    match (first, last) {
        (Some(first), Some(last)) => {
            let _ = lists.replace(owner.bytes(), OwnerList { first, last });
        }
        _ => lists.remove(owner.bytes()),
    }
}
