// Tables of items.
ghost use Rattle.std.specs.Prelude.{◌≡◌, ◌&&◌, [], IfOk, IfSome, OnOk, OnErr, None, is_none, not, true, slice_get, map as each};
ghost use Rattle.std.specs.List.{IsDistinct};
ghost use Rattle.std.specs.Option.{option_copied};
ghost use Rattle.std.specs.FinMap as map;
ghost use Rattle.std.specs.Str.{bytes_eq};
ghost use Rattle.indexmap.specs.IndexMap.{values};
ghost use Rattle.dc_text.specs.Bytes.{is_nil};
ghost use Rattle.dc_text.specs.Names.{is_name};
ghost use Rattle.dc_item.specs.After.{asked, after_at, effect_of};
ghost use Rattle.dc_item.specs.Printed.{table_text};
ghost use Rattle.dc_item.specs.Table.{table_of};
ghost use Rattle.dc_item.specs.declared.op.After.TheVariants.{Changed, Gone};
ghost use Rattle.dc_item.specs.declared.op.Op.TheVariants.{Put};
ghost use Rattle.dc_table.specs.Marks.{marks_of, with_mark};
ghost use Rattle.dc_table.specs.Tracked.{is_put, with_made, owned as owned_of};

use crate::listing::in_order;
use crate::touched::Touched;
use dc_item::{Effect, Item, Op, Records, TableKey, print_record};
use dc_text::{List, Mem, Name, NameRefused, OutOfMemory, Text};
use indexmap::IndexMap;
use indexmap::map::Entry;
use std::alloc::Global;
use std::marker::Model;

/// Items by their names, and which of them were touched. To find an item or to touch it takes no other into account; to put the
/// items into byte order of their names takes memory.
#[derive(Drop)]
pub struct ItemTable {
    alloc: Global,
    items: IndexMap<TableKey, Item>,
    touched: Touched,
}

impl Model for ItemTable {
    ghost use Rattle.std.specs.Prelude.{◌≡◌, ℕ, List, true};
    ghost use Rattle.std.specs.FinMap as map;
    ghost use Rattle.indexmap.specs.IndexMap.{keys, index_map_len};
    ghost use Rattle.dc_text.specs.Maps.{text_cmp};
    ghost use Rattle.dc_text.specs.Names.{is_name};
    ghost use Rattle.dc_table.specs.Tracked.{Tracked, tracked_code};

    ghost Value = { Tracked };

    ghost coded = { tracked_code };

    ghost use Rattle.dc_table.specs.Marks.{marks_of, touched_in, are_within};

    ghost view = { λ t. record { items = map.from_entries t.items.entries; touched = touched_in (keys t.items) (marks_of t.touched) } };

    ghost invariant = { λ t. ((name : List ℕ) → map.contains_key {R = text_cmp} (map.from_entries t.items.entries) name ≡ true → is_name name ≡ true) × (are_within (index_map_len t.items) (marks_of t.touched) ≡ true) };
}

impl ItemTable {
    /// No item, and none touched.
    pub fn new(alloc: Global) -> Self
        ensures { result ≡ record { items = map.empty; touched = [] } }
    {
        ItemTable {
            alloc,
            items: IndexMap::new(alloc),
            touched: Touched::new(alloc),
        }
    }

    /// The items of the records, at their names, and none touched. It takes no memory.
    pub fn from_records(alloc: Global, records: Records) -> Self
        ensures { result ≡ record { items = table_of records; touched = [] } }
    {
        ItemTable {
            alloc,
            items: records.into_entries(),
            touched: Touched::new(alloc),
        }
    }

    /// The item at the name, if there is one.
    pub fn get(&self, name: &[u8]) -> Option<&Item>
        ensures { option_copied result ≡ map.get self.now.items name.now }
    {
        self.items.get(name)
    }

    /// Whether there is an item at the name.
    pub fn contains(&self, name: &[u8]) -> bool
        ensures { result ≡ map.contains_key self.now.items name.now }
    {
        self.get(name).is_some()
    }

    /// Puts an item that was loaded at the name, in the place of one that stood there. It touches nothing.
    pub fn insert(&mut self, name: Name, item: Item) -> Mem<()>
        ensures ok { OnOk result (self.new ≡ record self.old { items = map.insert self.old.items name item }) }
        ensures err { OnErr result (self.new ≡ self.old) }
    {
        self.items.insert(TableKey::of(name), item)?;
        Ok(())
    }

    /// Does the operation on the item at the name, or makes one, and touches the name where it changes. It tells what it does to
    /// the item, or nothing where there is none and it makes none. After an error the table is as before.
    pub fn change(&mut self, name: &Name, op: &Op) -> Mem<Option<Effect>>
        ensures lacks { IfOk result (λ effect. is_none effect ≡ (not (map.contains_key self.old.items name.now) && not (is_put op.now))) }
        ensures told { IfOk result (λ effect. IfSome effect (λ e. e ≡ effect_of (after_at op.now (map.get self.old.items name.now)))) }
        ensures ok { OnOk result (self.new ≡ with_made self.old name.now (after_at op.now (map.get self.old.items name.now))) }
        ensures err { OnErr result (self.new ≡ self.old) }
    {
        match self.items.get_index_of(name.bytes()) {
            None => self.make(name, op),
            Some(place) => match effect_at(&self.items, place, op)? {
                Effect::Same => Ok(Some(Effect::Same)),
                Effect::Changed => {
                    work_on(&mut self.items[place], &mut self.touched, place, name, op)?;
                    Ok(Some(Effect::Changed))
                }
                Effect::Gone => {
                    self.remove(place, name)?;
                    Ok(Some(Effect::Gone))
                }
            },
        }
    }

    /// Puts the item at the name, in the place of one that stands there, and touches the name, unless the same item stands there.
    /// It tells what it does. Neither is copied. After an error the table is as before.
    pub fn put(&mut self, name: Name, item: Item) -> Mem<Effect>
        ensures told { IfOk result (λ effect. effect ≡ effect_of (after_at (Put item) (map.get self.old.items name))) }
        ensures ok { OnOk result (self.new ≡ with_made self.old name (after_at (Put item) (map.get self.old.items name))) }
        ensures err { OnErr result (self.new ≡ self.old) }
    {
        match self.items.entry(TableKey::of(name))? {
            Entry::Vacant(entry) => {
                if let Err(error) = self.touched.touch(entry.index(), entry.key().bytes()) {
                    // It gives the map back, for the proof.
                    let _ = entry.into_key();
                    return Err(error);
                }
                entry.insert(item);
                Ok(Effect::Changed)
            }
            Entry::Occupied(entry) => {
                let op = Op::Put(item);
                match op.effect(Some(entry.get()))? {
                    Effect::Same => Ok(Effect::Same),
                    Effect::Changed => {
                        self.touched.touch(entry.index(), entry.key().bytes())?;
                        put_over(entry.into_mut(), op);
                        Ok(Effect::Changed)
                    }
                    Effect::Gone => unreachable!(),
                }
            }
        }
    }

    // Does the operation where no item is at the name.
    fn make(&mut self, name: &Name, op: &Op) -> Mem<Option<Effect>>
        requires { map.get self.old.items name.now ≡ None }
        ensures lacks { IfOk result (λ effect. is_none effect ≡ not (is_put op.now)) }
        ensures told { IfOk result (λ effect. IfSome effect (λ e. e ≡ effect_of (after_at op.now None))) }
        ensures ok { OnOk result (self.new ≡ with_made self.old name.now (after_at op.now None)) }
        ensures err { OnErr result (self.new ≡ self.old) }
    {
        match op {
            Op::Put(item) => {
                self.put(name.copy()?, item.copy()?)?;
                Ok(Some(Effect::Changed))
            }
            _ => Ok(None),
        }
    }

    // Takes the item at the name away, if there is one, and touches the name. The last entry moves to its place.
    fn remove(&mut self, place: usize, name: &Name) -> Mem<()>
        ensures ok { OnOk result (self.new ≡ with_made self.old name.now Gone) }
        ensures err { OnErr result (self.new ≡ self.old) }
    {
        self.touched.keep_names(self.alloc, &self.items)?;
        self.touched.touch(place, name.bytes())?;
        let _ = self.items.swap_remove(name.bytes());
        Ok(())
    }

    /// The names of the items, in byte order.
    pub fn names(&self) -> Mem<List<Name>>
        ensures { IfOk result (λ names. names ≡ map.keys self.now.items) }
    {
        let order = self.in_order()?;
        let mut names = List::new(self.alloc);
        for (name, _) in order.iter() {
            names.push(name_of(self.alloc, name)?)?;
        }
        Ok(names)
    }

    /// The names of the items that have the owner, in byte order.
    pub fn owned(&self, owner: &Name) -> Mem<List<Name>>
        ensures { IfOk result (λ names. names ≡ owned_of self.now.items owner.now) }
    {
        let order = self.in_order()?;
        let mut names = List::new(self.alloc);
        for (name, item) in order.iter() {
            if is_owned(item, owner) {
                names.push(name_of(self.alloc, name)?)?;
            }
        }
        Ok(names)
    }

    /// The names and the items, in byte order of the names.
    pub fn in_order(&self) -> Mem<Vec<(&[u8], &Item)>>
        ensures { IfOk result (λ order. each (λ e. (e.0.now, e.1.now)) order.items ≡ map.entries self.now.items) }
    {
        in_order(self.alloc, &self.items)
    }

    /// The printed text of the table: the records of its items, in byte order of their names.
    pub fn print(&self) -> Mem<Text>
        ensures { IfOk result (λ text. text ≡ table_text self.now.items) }
    {
        let order = self.in_order()?;
        let mut text = Text::new(self.alloc);
        for (name, item) in order.iter() {
            print_record(self.alloc, &mut text, name, item)?;
        }
        Ok(text)
    }

    /// Whether a name was touched. No name is touched twice.
    pub fn is_touched(&self) -> bool
        ensures some { result ≡ not (is_nil self.now.touched) }
        ensures distinct { IsDistinct bytes_eq self.now.touched }
    {
        let _entries = self.items.as_slice();
        !self.touched.is_empty()
    }

    /// The touched names, each once, in the order in which they were first touched.
    pub fn touched(&self) -> Mem<Vec<&[u8]>>
        ensures names { IfOk result (λ names. each (λ name. name.now) names.items ≡ self.now.touched) }
        ensures distinct { IsDistinct bytes_eq self.now.touched }
    {
        self.touched.names(self.alloc, &self.items)
    }

    /// Takes note that no name is touched any more. The items stay.
    pub fn clear_touched(&mut self)
        ensures { self.new ≡ record self.old { touched = [] } }
    {
        self.touched = Touched::new(self.alloc);
    }
}

// What the operation does to the item at the place.
fn effect_at(items: &IndexMap<TableKey, Item>, place: usize, op: &Op) -> Mem<Effect>
    ensures { IfOk result (λ effect. effect ≡ effect_of (after_at op.now (slice_get (values items.now) place))) }
{
    match items.get_index(place) {
        Some((_, item)) => op.effect(Some(item)),
        None => op.effect(None),
    }
}

// Makes the item the one that the operation asks for, and touches its name, which has this place; or changes nothing.
fn work_on(item: &mut Item, touched: &mut Touched, place: usize, name: &Name, op: &Op) -> Mem<()>
    ensures ok { OnOk result (item.new ≡ asked op.now item.old) }
    ensures err { OnErr result (item.new ≡ item.old) }
    ensures touched { OnOk result (marks_of touched.new ≡ with_mark (marks_of touched.old) place name.now) }
    ensures untouched { OnErr result (marks_of touched.new ≡ marks_of touched.old) }
{
    let is_new = touched.touch(place, name.bytes())?;
    match item.apply(op) {
        Ok(()) => Ok(()),
        Err(error) => {
            if is_new {
                touched.forget_last();
            }
            Err(error)
        }
    }
}

// Makes the item the one that the operation puts, without a copy.
fn put_over(item: &mut Item, op: Op)
    requires { is_put op ≡ true }
    ensures { item.new ≡ asked op item.old }
{
    if let Op::Put(new) = op {
        *item = new;
    }
}

// The name that the bytes are.
fn name_of(alloc: Global, bytes: &[u8]) -> Mem<Name>
    requires { is_name bytes.now ≡ true }
    ensures { IfOk result (λ name. name ≡ bytes.now) }
{
    match Name::read(alloc, bytes) {
        Ok(name) => Ok(name),
        Err(NameRefused::Bad) => unreachable!(),
        Err(NameRefused::OutOfMemory) => Err(OutOfMemory),
    }
}

/// Whether the item has the owner.
pub fn is_owned(item: &Item, owner: &Name) -> bool
    ensures { result ≡ map.contains_key item.now.owners owner.now }
{
    item.has_owner(owner.bytes())
}
