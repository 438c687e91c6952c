// Records of a database text.
use crate::item::Item;
use dc_text::Name;

/// A record of a database text.
#[derive(Drop)]
pub struct Entry {
    pub name: Name,
    pub item: Item,
    /// The number of the record's Name line, from 1.
    pub line: u64,
}
