// The links of owners' lists, as tests read them.
use super::{LinkNumber, OwnerLists};
use crate::slot_vector::tests::number;
use dc_text::Name;
use std::alloc::{AllocError, Global};

fn number_in(link: Option<LinkNumber>) -> Option<usize> {
    match link {
        Some(link) => Some(link.number),
        None => None,
    }
}

/// The numbers of the slots that the links of the owner hold, from the first to the last.
pub(crate) fn held(
    alloc: Global,
    lists: &OwnerLists,
    owner: &Name,
) -> Result<Vec<usize>, AllocError> {
    let mut slots = Vec::new(alloc);
    let Some(list) = lists.lists.get(owner.bytes()) else {
        return Ok(slots);
    };
    let mut at = Some(list.first.number);
    for _ in 0..lists.links.len() {
        let Some(link_number) = at else {
            break;
        };
        let Some(link) = lists.links.get(link_number) else {
            break;
        };
        slots.push(number(link.slot))?;
        at = number_in(link.next);
    }
    Ok(slots)
}

/// How many links there are.
pub(crate) fn link_count(lists: &OwnerLists) -> usize {
    lists.links.len()
}
