// Values by their names, which names were touched, and which names each owner has.
ghost use Rattle.std.specs.Prelude.{◌≡◌, ◌+◌, [], ◌∷◌, ◌++◌, IfOk, OnOk, OnErr, None, Some, not, drop, false};
ghost use Rattle.std.specs.List.{IsDistinct};
ghost use Rattle.std.specs.Option.{option_copied};
ghost use Rattle.std.specs.Iterator.{YieldsFirstBy, item_count};
ghost use Rattle.std.specs.Str.{bytes_eq};
ghost use Rattle.std.specs.FinMap as map;
ghost use Rattle.dc_text.specs.Bytes.{is_nil};
ghost use Rattle.dc_slots.specs.Chains.{has};
ghost use Rattle.dc_slots.specs.Numbered.{IsKept, owners_at, with_owners};
ghost use Rattle.dc_slots.specs.Slots.{list_of, with_touched, with_owner, without_owner, IsUnused};
ghost use Rattle.dc_slots.specs.Parts.{IsPlaced, IsReleased};

#[cfg(test)]
mod tests;

use crate::owner_lists::{OwnedSlots, OwnerLists};
use crate::slot_vector::{SlotNumber, SlotVector, TouchedNames};
use dc_text::{List, Mem, Name, TextMap};
use std::alloc::Global;
use std::marker::Model;

/// Values by their names, which names were touched, and which names each owner has. A name that has no value, isn't touched and
/// that no owner has takes no slot.
#[derive(Drop)]
pub struct SlotTable<T> {
    alloc: Global,
    places: TextMap<SlotNumber>,
    slots: SlotVector<T>,
    owners: OwnerLists,
}

impl<T> Model for SlotTable<T> {
    ghost use Rattle.dc_slots.specs.Slots.{Slots, slots_code};

    ghost Value = { Slots T };

    ghost coded = { slots_code T.code };

    ghost use Rattle.dc_slots.specs.Parts.{table_of, AreSound};

    ghost view = { λ t. table_of t.places t.slots t.owners };

    ghost invariant = { λ t. AreSound t.places t.slots t.owners };
}

impl<T: Drop> SlotTable<T> {
    /// No value, no touched name and no owner.
    pub fn new(alloc: Global) -> Self
        ensures { result ≡ record { values = map.empty; touched = []; owned = map.empty } }
    {
        SlotTable {
            alloc,
            places: TextMap::new(alloc),
            slots: SlotVector::new(alloc),
            owners: OwnerLists::new(alloc),
        }
    }

    /// The value at the name, if there is one.
    pub fn get(&self, name: &Name) -> Option<&T>
        ensures { option_copied result ≡ map.get self.now.values name.now }
    {
        self.slots.value(number_of(&self.places, name)?)
    }

    /// Puts the value at the name, and hands out the one that stood there. Memory can fail only for a name that wasn't used.
    pub fn put(&mut self, name: &Name, value: T) -> Mem<Option<T>>
        ensures old { IfOk result (λ old. old ≡ map.get self.old.values name.now) }
        ensures ok { OnOk result (self.new ≡ record self.old { values = map.insert self.old.values name.now value }) }
        ensures err { OnErr result (self.new ≡ self.old) }
        ensures unused { OnErr result (IsUnused self.old name.now) }
    {
        let number = place_for(&mut self.places, &mut self.slots, name)?;
        Ok(self.slots.set_value(number, Some(value)))
    }

    /// Takes the value at the name, if there is one. The name stays touched where it is, and in the lists of its owners.
    pub fn take(&mut self, name: &Name) -> Option<T>
        ensures value { result ≡ map.get self.old.values name.now }
        ensures new { self.new ≡ record self.old { values = map.remove self.old.values name.now } }
    {
        let number = number_of(&self.places, name)?;
        let value = self.slots.set_value(number, None);
        release(&mut self.places, &mut self.slots, number);
        value
    }

    /// The names that have a value, in byte order.
    pub fn names_in_order(&self) -> Mem<List<Name>>
        ensures { IfOk result (λ names. names ≡ map.keys self.now.values) }
    {
        let mut names = List::new(self.alloc);
        for (_, number) in self.places.iter() {
            if self.slots.value(*number).is_some() {
                names.push(self.slots.name(*number).copy()?)?;
            }
        }
        Ok(names)
    }

    /// Touches the name, as the last, unless it is touched. Memory can fail only for a name that wasn't used.
    pub fn touch(&mut self, name: &Name) -> Mem<()>
        ensures ok { OnOk result (self.new ≡ with_touched self.old name.now) }
        ensures err { OnErr result (self.new ≡ self.old) }
        ensures unused { OnErr result (IsUnused self.old name.now) }
    {
        let number = place_for(&mut self.places, &mut self.slots, name)?;
        if self.slots.is_touched(number) {
            return Ok(());
        }
        self.slots.touch(number);
        Ok(())
    }

    /// The touched names, in the order in which they were touched. It takes no memory.
    pub fn touched(&self) -> TouchedNames<'_, T>
        ensures names { result ≡ self.now.touched }
        ensures distinct { IsDistinct bytes_eq self.now.touched }
    {
        self.slots.touched()
    }

    /// Takes note that no name is touched any more.
    pub fn clear_touched(&mut self)
        ensures { self.new ≡ record self.old { touched = [] } }
    {
        while self.forget_first() {}
    }

    // Takes note that the first of the touched names isn't touched any more. It answers whether there was one.
    fn forget_first(&mut self) -> bool
        ensures found { result ≡ not (is_nil self.old.touched) }
        ensures new { self.new ≡ record self.old { touched = drop 1 self.old.touched } }
    {
        let Some(number) = self.slots.forget_first() else {
            return false;
        };
        release(&mut self.places, &mut self.slots, number);
        true
    }

    /// Puts the name at the end of the owner's list, unless it is there.
    pub fn join_owner(&mut self, name: &Name, owner: &Name) -> Mem<()>
        ensures ok { OnOk result (self.new ≡ with_owner self.old name.now owner.now) }
        ensures err { OnErr result (self.new ≡ self.old) }
    {
        let number = place_for(&mut self.places, &mut self.slots, name)?;
        if self.owners.has(owner, number) {
            return Ok(());
        }
        if let Err(error) = join(&mut self.slots, &mut self.owners, number, owner) {
            release(&mut self.places, &mut self.slots, number);
            return Err(error);
        }
        Ok(())
    }

    /// The names of the owner, in the order in which they came to it. It takes no memory.
    pub fn owned(&self, owner: &Name) -> OwnedNames<'_, T>
        ensures names { result ≡ list_of self.now.owned owner.now }
        ensures distinct { IsDistinct bytes_eq (list_of self.now.owned owner.now) }
    {
        OwnedNames {
            slots: &self.slots,
            left: self.owners.owned(owner),
        }
    }

    /// Takes the name out of the owner's list, if it is there.
    pub fn leave_owner(&mut self, name: &Name, owner: &Name)
        ensures { self.new ≡ without_owner self.old name.now owner.now }
    {
        let Some(number) = number_of(&self.places, name) else {
            return;
        };
        if self.owners.leave(owner, number) {
            self.slots.drop_owner(number);
            release(&mut self.places, &mut self.slots, number);
        }
    }
}

/// The names that are left of a walk of an owner's names, in their order.
#[derive(Drop)]
pub struct OwnedNames<'a, T> {
    slots: &'a SlotVector<T>,
    left: OwnedSlots<'a>,
}

impl<'a, T> Model for OwnedNames<'a, T> {
    ghost use Rattle.std.specs.Prelude.{◌≡◌, List, ℕ, true, map as each};
    ghost use Rattle.dc_slots.specs.Chains.{has};
    ghost use Rattle.dc_slots.specs.Numbered.{IsKept, name_at};

    ghost Value = { List (List ℕ) };

    ghost view = { λ w. each (name_at w.slots.now) w.left };

    ghost invariant = { λ w. (n : ℕ) → has n w.left ≡ true → IsKept w.slots.now n };
}

impl<'a, T: Drop> Iterator for OwnedNames<'a, T> {
    type Item = &'a Name;

    ghost next_gives = { YieldsFirstBy (λ name. name.now) (λ rest. rest) };

    ghost remaining = { item_count (λ rest. rest) };

    fn next(&mut self) -> Option<&'a Name> {
        let number = self.left.step()?;
        Some(self.slots.name(number))
    }
}

// The number of the name's slot, if it has one.
fn number_of(places: &TextMap<SlotNumber>, name: &Name) -> Option<SlotNumber>
    ensures { result ≡ map.get places.now name.now }
{
    match places.get(name.bytes()) {
        Some(number) => Some(*number),
        None => None,
    }
}

// The number of the name's slot, which is put where there is none.
fn place_for<T: Drop>(
    places: &mut TextMap<SlotNumber>,
    slots: &mut SlotVector<T>,
    name: &Name,
) -> Mem<SlotNumber>
    ensures ok { IfOk result (λ n. IsPlaced places.old places.new slots.old slots.new name.now n) }
    ensures none { OnErr result (map.get places.old name.now ≡ None) }
    ensures err { OnErr result ((places.new ≡ places.old) × (slots.new ≡ slots.old)) }
{
    if let Some(number) = number_of(places, name) {
        return Ok(number);
    }
    let key = name.copy()?.into_text();
    let number = slots.insert(name.copy()?)?;
    if let Err(error) = places.insert(key, number) {
        slots.remove(number);
        return Err(error);
    }
    Ok(number)
}

// Takes the slot away where it isn't used.
fn release<T: Drop>(places: &mut TextMap<SlotNumber>, slots: &mut SlotVector<T>, number: SlotNumber)
    requires { IsKept slots.old number }
    ensures { IsReleased places.old places.new slots.old slots.new number }
{
    if slots.is_used(number) {
        return;
    }
    places.remove(slots.name(number).bytes());
    slots.remove(number);
}

// Puts the slot, which the owner hasn't, at the end of the owner's list, and counts the owner.
fn join<T: Drop>(
    slots: &mut SlotVector<T>,
    owners: &mut OwnerLists,
    number: SlotNumber,
    owner: &Name,
) -> Mem<()>
    requires kept { IsKept slots.old number }
    requires new { has number (list_of owners.old owner.now) ≡ false }
    ensures slots { OnOk result (slots.new ≡ with_owners slots.old number (owners_at slots.old number + 1)) }
    ensures owners { OnOk result (owners.new ≡ map.insert owners.old owner.now (list_of owners.old owner.now ++ number ∷ [])) }
    ensures err { OnErr result ((slots.new ≡ slots.old) × (owners.new ≡ owners.old)) }
{
    slots.add_owner(number)?;
    if let Err(error) = owners.join(owner, number) {
        slots.drop_owner(number);
        return Err(error);
    }
    Ok(())
}
