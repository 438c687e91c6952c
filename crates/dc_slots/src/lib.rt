//! A table of slots that are linked by their numbers: values by their names, which names were touched, and which names each owner
//! has.
#![tactic(auto)]

mod owner_lists;
pub mod slot_table;
mod slot_vector;

pub use slot_table::{OwnedNames, SlotTable};
pub use slot_vector::TouchedNames;
