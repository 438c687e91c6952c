// Slots by their numbers, of which those that are touched each name the next.
ghost use Rattle.std.specs.Prelude.{◌≡◌, nat_eq, slice_set, ◌+◌, ◌-◌, ◌<◌, ◌∷◌, ◌++◌, [], true, false, None, Some, is_some, IsSome, map as each, IfOk, OnOk, OnErr, MatchOption};
ghost use Rattle.std.specs.List.{IsDistinct};
ghost use Rattle.std.specs.Option.{option_copied};
ghost use Rattle.std.specs.Iterator.{YieldsFirstBy, item_count};
ghost use Rattle.std.specs.FinMap as map;
ghost use Rattle.dc_slots.specs.Chains.{has};
ghost use Rattle.dc_slots.specs.Threads.{slot_at, next_in, with_next, linked, first_before as first_of, last_behind as last_of};
ghost use Rattle.dc_slots.specs.Numbered.{IsKept, is_used, name_at, value_at, owners_at, with_kept, with_value, with_owners};

#[cfg(test)]
pub(crate) mod tests;

use dc_text::{Mem, Name, OutOfMemory};
use slab::Slab;
use std::alloc::Global;
use std::marker::Model;

/// The number of a slot.
#[derive(Clone, Copy)]
pub(crate) struct SlotNumber {
    number: usize,
}

impl Model for SlotNumber {
    ghost use Rattle.std.specs.Prelude.{ℕ};

    ghost Value = { ℕ };

    ghost view = { λ n. n.number };

    ghost inverse = { λ n. record { number = n } };
}

impl SlotNumber {
    /// Whether it is the same number.
    pub(crate) fn is(self, other: SlotNumber) -> bool
        ensures { result ≡ nat_eq self other }
    {
        self.number == other.number
    }
}

/// A name, its value or none, and how many owners have it.
#[derive(Drop)]
struct Slot<T> {
    name: Name,
    value: Option<T>,
    owners: usize,
    next_touched: Option<SlotNumber>,
}

/// Slots. One that is taken away leaves its number to the next that is put.
#[derive(Drop)]
pub(crate) struct SlotVector<T> {
    slots: Slab<Slot<T>>,
    first_touched: Option<SlotNumber>,
    last_touched: Option<SlotNumber>,
}

impl<T> Model for SlotVector<T> {
    ghost use Rattle.dc_slots.specs.Numbered.{Numbered, numbered_code};

    ghost Value = { Numbered T };

    ghost coded = { numbered_code T.code };

    ghost use Rattle.dc_slots.specs.Threads.{kept_from, touched_from, IsThreaded};

    ghost view = { λ v. record { kept = kept_from 0 v.slots.slots; touched = touched_from v.slots.slots v.first_touched } };

    ghost invariant = { λ v. IsThreaded v.slots.slots v.first_touched v.last_touched };
}

impl<T: Drop> SlotVector<T> {
    /// No slot.
    pub(crate) fn new(alloc: Global) -> Self
        ensures { result ≡ record { kept = map.empty; touched = [] } }
    {
        SlotVector {
            slots: Slab::new(alloc),
            first_touched: None,
            last_touched: None,
        }
    }

    /// The name of the slot.
    pub(crate) fn name(&self, number: SlotNumber) -> &Name
        requires { IsKept self.now number }
        ensures { result.now ≡ name_at self.now number }
    {
        &self.slots[number.number].name
    }

    /// The value of the slot, if it has one.
    pub(crate) fn value(&self, number: SlotNumber) -> Option<&T>
        ensures { option_copied result ≡ value_at self.now number }
    {
        match self.slots.get(number.number) {
            Some(slot) => slot.value.as_ref(),
            None => None,
        }
    }

    /// Whether the slot is touched.
    pub(crate) fn is_touched(&self, number: SlotNumber) -> bool
        requires { IsKept self.now number }
        ensures { result ≡ has number self.now.touched }
    {
        if self.slots[number.number].next_touched.is_some() {
            return true;
        }
        match self.last_touched {
            Some(last) => number.is(last),
            None => false,
        }
    }

    /// Whether the slot has a value, is touched or is some owner's.
    pub(crate) fn is_used(&self, number: SlotNumber) -> bool
        requires { IsKept self.now number }
        ensures { result ≡ is_used self.now number }
    {
        self.value(number).is_some() || self.is_touched(number) || self.owners(number) != 0
    }

    fn owners(&self, number: SlotNumber) -> usize
        ensures { result ≡ owners_at self.now number }
    {
        match self.slots.get(number.number) {
            Some(slot) => slot.owners,
            None => 0,
        }
    }

    /// Puts a slot that has the name alone, and answers its number.
    pub(crate) fn insert(&mut self, name: Name) -> Mem<SlotNumber>
        ensures new { IfOk result (λ n. map.get self.old.kept n ≡ None) }
        ensures untouched { IfOk result (λ n. has n self.old.touched ≡ false) }
        ensures ok { IfOk result (λ n. self.new ≡ with_kept self.old n (record { name = name; value = None; owners = 0 })) }
        ensures err { OnErr result (self.new ≡ self.old) }
    {
        let number = self.slots.insert(Slot {
            name,
            value: None,
            owners: 0,
            next_touched: None,
        })?;
        Ok(SlotNumber { number })
    }

    /// Takes the slot away, which isn't touched.
    pub(crate) fn remove(&mut self, number: SlotNumber)
        requires { has number self.old.touched ≡ false }
        ensures { self.new ≡ record self.old { kept = map.remove self.old.kept number } }
    {
        let _ = self.slots.try_remove(number.number);
    }

    /// Gives the slot this value, or takes its value, and hands out the one that it had.
    pub(crate) fn set_value(&mut self, number: SlotNumber, value: Option<T>) -> Option<T>
        requires { IsKept self.old number }
        ensures old { result ≡ value_at self.old number }
        ensures new { self.new ≡ with_value self.old number value }
    {
        std::mem::replace(&mut self.slots[number.number].value, value)
    }

    /// Takes note of one more owner, unless there are too many to count.
    pub(crate) fn add_owner(&mut self, number: SlotNumber) -> Mem<()>
        requires { IsKept self.old number }
        ensures ok { OnOk result (self.new ≡ with_owners self.old number (owners_at self.old number + 1)) }
        ensures err { OnErr result (self.new ≡ self.old) }
    {
        let Some(owners) = self.owners(number).checked_add(1) else {
            return Err(OutOfMemory);
        };
        self.slots[number.number].owners = owners;
        Ok(())
    }

    /// Takes note of one owner less.
    pub(crate) fn drop_owner(&mut self, number: SlotNumber)
        requires { IsKept self.old number }
        ensures { self.new ≡ with_owners self.old number (owners_at self.old number - 1) }
    {
        let owners = self.owners(number).saturating_sub(1);
        self.slots[number.number].owners = owners;
    }

    /// Touches the slot, which isn't touched, as the last.
    pub(crate) fn touch(&mut self, number: SlotNumber)
        requires kept { IsKept self.old number }
        requires untouched { has number self.old.touched ≡ false }
        ensures { self.new ≡ record self.old { touched = self.old.touched ++ number ∷ [] } }
    {
        link_behind(&mut self.slots, self.last_touched, number);
        self.first_touched = first_before(self.first_touched, number);
        self.last_touched = Some(number);
    }

    /// The names of the touched slots, in their order.
    pub(crate) fn touched(&self) -> TouchedNames<'_, T>
        ensures names { result ≡ each (name_at self.now) self.now.touched }
        ensures distinct { IsDistinct nat_eq self.now.touched }
    {
        TouchedNames {
            slots: &self.slots,
            next: self.first_touched,
        }
    }

    /// Takes note that the first of the touched slots isn't touched any more, and answers its number.
    pub(crate) fn forget_first(&mut self) -> Option<SlotNumber>
        ensures touched { MatchOption result ((self.old.touched ≡ []) × (self.new ≡ self.old)) (λ n. self.old.touched ≡ n ∷ self.new.touched) }
        ensures kept { self.new.kept ≡ self.old.kept }
        ensures apart { MatchOption result Unit (λ n. has n self.new.touched ≡ false) }
        ensures first { MatchOption result Unit (λ n. IsKept self.old n) }
    {
        let first = self.first_touched?;
        let next = take_next(&mut self.slots, first);
        self.last_touched = last_behind(&next, self.last_touched);
        self.first_touched = next;
        Some(first)
    }
}

// Lets the last of the touched slots, if there is one, name this one as the next.
fn link_behind<T: Drop>(slots: &mut Slab<Slot<T>>, last: Option<SlotNumber>, number: SlotNumber)
    requires { MatchOption last Unit (λ l. IsSome (slot_at slots.old.slots l)) }
    ensures { slots.new.slots ≡ linked slots.old.slots last number }
{
    if let Some(last) = last {
        slots[last.number].next_touched = Some(number);
    }
}

// Takes the number of the next touched slot out of the slot.
fn take_next<T: Drop>(slots: &mut Slab<Slot<T>>, number: SlotNumber) -> Option<SlotNumber>
    requires { IsSome (slot_at slots.old.slots number) }
    ensures next { result ≡ next_in slots.old.slots number }
    ensures slots { slots.new.slots ≡ slice_set slots.old.slots number (with_next (slot_at slots.old.slots number) None) }
{
    slots[number.number].next_touched.take()
}

fn first_before(first: Option<SlotNumber>, number: SlotNumber) -> Option<SlotNumber>
    ensures { result ≡ first_of first number }
{
    match first {
        Some(first) => Some(first),
        None => Some(number),
    }
}

fn last_behind(next: &Option<SlotNumber>, last: Option<SlotNumber>) -> Option<SlotNumber>
    ensures { result ≡ last_of next.now last }
{
    match next {
        Some(_) => last,
        None => None,
    }
}

/// The touched names that are left of a walk, in their order.
#[derive(Drop)]
pub struct TouchedNames<'a, T> {
    slots: &'a Slab<Slot<T>>,
    next: Option<SlotNumber>,
}

impl<'a, T> Model for TouchedNames<'a, T> {
    ghost use Rattle.std.specs.Prelude.{List, ℕ};

    ghost Value = { List (List ℕ) };

    ghost use Rattle.dc_slots.specs.Threads.{names_from, IsWalked};

    ghost view = { λ w. names_from w.slots.now.slots w.next };

    ghost invariant = { λ w. IsWalked w.slots.now.slots w.next };
}

impl<'a, T> Iterator for TouchedNames<'a, T> {
    type Item = &'a Name;

    ghost next_gives = { YieldsFirstBy (λ name. name.now) (λ rest. rest) };

    ghost remaining = { item_count (λ rest. rest) };

    fn next(&mut self) -> Option<&'a Name> {
        let number = self.next?;
        let slots = self.slots;
        let slot = &slots[number.number];
        self.next = slot.next_touched;
        Some(&slot.name)
    }
}
