//! Maps from texts to texts, each key under the mark of its part: what an item is kept in.
#![tactic(auto)]

mod builder;
mod entries;
mod many;
mod packed;
mod packed_builder;
mod packed_entries;
mod part_key;
pub mod part_map;
mod places;
mod usual;
mod writing;

pub use builder::PartMapBuilder;
pub use entries::Entries;
pub use part_map::PartMap;
pub use usual::UsualKey;
