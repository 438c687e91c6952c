// The links of touched slots, as tests read them.
use super::{SlotNumber, SlotVector};

fn number_in(number: Option<SlotNumber>) -> Option<usize> {
    match number {
        Some(slot) => Some(slot.number),
        None => None,
    }
}

/// The number that the slot names as the next touched one.
pub(crate) fn next_touched<T: Drop>(vector: &SlotVector<T>, number: usize) -> Option<usize> {
    let slot = vector.slots.get(number)?;
    number_in(slot.next_touched)
}

/// The number of the slot that has the name.
pub(crate) fn number_of<T: Drop>(vector: &SlotVector<T>, name: &[u8]) -> Option<usize> {
    for (number, slot) in vector.slots.iter() {
        if slot.name.bytes() == name {
            return Some(number);
        }
    }
    None
}

/// The number of the slot that a link of an owner holds.
pub(crate) fn number(slot: SlotNumber) -> usize {
    slot.number
}

/// How many slots are used, and the number that the next one gets.
pub(crate) fn counts<T: Drop>(vector: &SlotVector<T>) -> (usize, usize) {
    (vector.slots.len(), vector.slots.vacant_key())
}

/// Whether the touched slots are walked to the last of them, each slot is used, and one that isn't touched names none.
pub(crate) fn are_linked<T: Drop>(vector: &SlotVector<T>) -> bool {
    let mut touched = 0usize;
    let mut last = None;
    let mut at = number_in(vector.first_touched);
    for _ in 0..vector.slots.len() {
        let Some(number) = at else {
            break;
        };
        touched = touched.saturating_add(1);
        last = Some(number);
        at = next_touched(vector, number);
    }
    let mut named = 0usize;
    for (number, slot) in vector.slots.iter() {
        let is_last = last == Some(number);
        if slot.next_touched.is_some() || is_last {
            named = named.saturating_add(1);
        }
        if slot.value.is_none() && slot.next_touched.is_none() && !is_last && slot.owners == 0 {
            return false;
        }
    }
    at.is_none() && last == number_in(vector.last_touched) && touched == named
}
