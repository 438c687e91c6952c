// The records of a text, as they are read.
ghost use Rattle.std.specs.Prelude.{◌≡◌, ◌∷◌, ◌++◌, [], IfOk, OnOk, true, false, length, List as Listed, ℕ};
ghost use Rattle.std.specs.FinMap as map;
ghost use Rattle.dc_text.specs.Maps.{set_of, text_cmp};
ghost use Rattle.dc_text.specs.Names.{is_name};
ghost use Rattle.dc_item.specs.Item.{no_parts};
ghost use Rattle.dc_item.specs.Table.{names_of, table_of};

use crate::entry::Entry;
use crate::item::Item;
use crate::item_builder::ItemBuilder;
use crate::owners::name_of;
use crate::table_key::TableKey;
use dc_text::{List, Mem, Name};
use indexmap::IndexMap;
use std::alloc::Global;
use std::marker::Model;

/// The records of a text, in the order in which they stand there. No two have one name.
#[derive(Drop)]
pub struct Records {
    items: IndexMap<TableKey, Item>,
    // The number of each record's Name line, from 1.
    lines: Vec<u64>,
    // An item in which nothing stands, with the memory in which the parts of the last record were put together.
    spare: ItemBuilder,
}

impl Model for Records {
    ghost use Rattle.std.specs.Prelude.{◌≡◌, List};
    ghost use Rattle.std.specs.Coded.{codes};
    ghost use Rattle.dc_item.specs.Item.{no_parts, parts_code};
    ghost use Rattle.dc_item.specs.RecordsRead.{with_lines, AreKept};
    ghost use Rattle.dc_item.specs.declared.entry.Entry.{Entry};

    ghost Value = { List Entry };

    ghost coded = { Prim.hlevel (codes, parts_code) };

    ghost view = { λ r. with_lines r.items.entries r.lines.items };

    ghost invariant = { λ r. AreKept r.items.entries r.lines.items × (r.spare ≡ no_parts) };
}

impl Records {
    /// No records.
    pub(crate) fn new(alloc: Global) -> Self
        ensures { result ≡ [] }
    {
        Records {
            items: IndexMap::new(alloc),
            lines: Vec::new(alloc),
            spare: ItemBuilder::new(alloc),
        }
    }

    /// How many records there are.
    pub fn len(&self) -> usize
        ensures { result ≡ length self.now }
    {
        self.items.len()
    }

    /// Whether one of the records has the name.
    pub(crate) fn has(&self, name: &[u8]) -> bool
        ensures { result ≡ map.contains_key (set_of (names_of self.now)) name.now }
    {
        self.items.contains_key(name)
    }

    /// An item in which nothing stands. It has the memory in which the last record was put together.
    pub(crate) fn spare_item(&mut self) -> ItemBuilder
        ensures item { result ≡ no_parts }
        ensures same { self.new ≡ self.old }
    {
        let alloc = *self.items.allocator();
        std::mem::replace(&mut self.spare, ItemBuilder::new(alloc))
    }

    /// Puts a record of a new name at the end. The item is copied into memory of just its size.
    pub(crate) fn push(&mut self, name: Name, item: ItemBuilder, line: u64) -> Mem<()>
        requires { map.contains_key (set_of (names_of self.old)) name ≡ false }
        ensures { OnOk result (self.new ≡ self.old ++ record { name = name; item = item; line = line } ∷ []) }
    {
        let mut item = item;
        let key = TableKey::of(name);
        let taken = item.take()?;
        self.items.reserve(1)?;
        self.lines.push(line)?;
        match self.items.insert(key, taken) {
            Ok(_) => {}
            Err(_) => unreachable!(),
        }
        self.spare = item;
        Ok(())
    }

    /// The names and items of the records, in their order. They aren't copied.
    pub fn into_entries(self) -> IndexMap<TableKey, Item>
        ensures table { map.from_entries result.entries ≡ table_of self }
        ensures names { (name : Listed ℕ) → map.contains_key {R = text_cmp} (map.from_entries result.entries) name ≡ true → is_name name ≡ true }
    {
        let Records {
            items,
            lines: _,
            spare: _,
        } = self;
        items
    }

    /// The list of the records, in their order.
    pub fn into_list(self, alloc: Global) -> Mem<List<Entry>>
        ensures { IfOk result (λ list. list ≡ self) }
    {
        let Records {
            items,
            lines,
            spare: _,
        } = self;
        let mut list = List::new(alloc);
        let mut rest = lines.as_slice();
        for (key, item) in items {
            let name = name_of(alloc, key.bytes())?;
            let Some((line, after)) = rest.split_first() else {
                unreachable!();
            };
            let line = *line;
            list.push(Entry { name, item, line })?;
            rest = after;
        }
        Ok(list)
    }
}
