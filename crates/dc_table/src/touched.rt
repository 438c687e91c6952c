// Which items of a table were touched.
ghost use Rattle.std.specs.Prelude.{◌≡◌, ℕ, ◌-◌, ◌&&◌, ◌||◌, [], true, false, not, length, take, fold, nat_eq, slice_index_or, map as each, IfOk, OnOk, OnErr};
ghost use Rattle.std.specs.List.{list_any, IsDistinct};
ghost use Rattle.std.specs.Str.{bytes_eq};
ghost use Rattle.indexmap.specs.IndexMap.{keys, index_map_len};
ghost use Rattle.dc_text.specs.Bytes.{is_nil};
ghost use Rattle.dc_table.specs.Places.{put as put_of};
ghost use Rattle.dc_table.specs.Marks.{marks_of, touched_in, are_within, AreApart, has_none, has_mark, with_mark, without_last, name_at, AtPlaces, AsNames};
ghost use Rattle.dc_table.specs.Tracked.{touch as touch_of};

use dc_item::{Item, TableKey};
use dc_text::{Mem, Text};
use indexmap::{IndexMap, IndexSet};
use std::alloc::Global;
use std::marker::Model;

/// Small numbers, each once, in the order in which they were put. To put one or to look for it takes no other into account.
#[derive(Drop)]
pub(crate) struct Places {
    order: Vec<usize>,
    // For each place whether it is in the order. One behind the end isn't.
    marks: Vec<bool>,
}

impl Model for Places {
    ghost use Rattle.std.specs.Prelude.{ℕ, List};

    ghost Value = { List ℕ };

    ghost use Rattle.dc_table.specs.Places.{AreMarked};

    ghost view = { λ p. p.order.items };

    ghost invariant = { λ p. AreMarked p.order.items p.marks.items };
}

impl Places {
    /// No place.
    pub(crate) fn new(alloc: Global) -> Self
        ensures { result ≡ [] }
    {
        Places {
            order: Vec::new(alloc),
            marks: Vec::new(alloc),
        }
    }

    /// Puts the place at the end, unless it is there. It answers whether it wasn't.
    pub(crate) fn put(&mut self, place: usize) -> Mem<bool>
        ensures new { IfOk result (λ is_new. is_new ≡ not (list_any (nat_eq place) self.old)) }
        ensures ok { OnOk result (self.new ≡ put_of self.old place) }
        ensures err { OnErr result (self.new ≡ self.old) }
    {
        if self.has(place) {
            return Ok(false);
        }
        self.order.reserve(1)?;
        set_mark(&mut self.marks, place)?;
        self.order.push_reserved(place);
        Ok(true)
    }

    fn has(&self, place: usize) -> bool
        ensures { result ≡ list_any (nat_eq place) self.now }
    {
        place < self.marks.len() && self.marks[place]
    }

    /// Takes the last place away, if there is one.
    pub(crate) fn forget_last(&mut self)
        ensures { self.new ≡ take (length self.old - 1) self.old }
    {
        if let Some(place) = self.order.pop() {
            clear_mark(&mut self.marks, place);
        }
    }

    pub(crate) fn is_empty(&self) -> bool
        ensures empty { (length self.now ≡ 0 → result ≡ true) × (result ≡ true → length self.now ≡ 0) }
        ensures distinct { IsDistinct nat_eq self.now }
    {
        self.order.is_empty()
    }

    pub(crate) fn as_slice(&self) -> &[usize]
        ensures value { result.now ≡ self.now }
        ensures distinct { IsDistinct nat_eq self.now }
    {
        self.order.as_slice()
    }
}

// Marks the place.
fn set_mark(marks: &mut Vec<bool>, place: usize) -> Mem<()>
    ensures ok { OnOk result ((p : ℕ) → slice_index_or marks.new.items p false ≡ (nat_eq p place || slice_index_or marks.old.items p false)) }
    ensures err { OnErr result ((p : ℕ) → slice_index_or marks.new.items p false ≡ slice_index_or marks.old.items p false) }
{
    if place < marks.len() {
        marks[place] = true;
        return Ok(());
    }
    marks.resize(place, false)?;
    marks.push(true)?;
    Ok(())
}

// Takes the place's mark away.
fn clear_mark(marks: &mut Vec<bool>, place: usize)
    ensures { (p : ℕ) → slice_index_or marks.new.items p false ≡ (not (nat_eq p place) && slice_index_or marks.old.items p false) }
{
    if place < marks.len() {
        marks[place] = false;
    }
}

/// The touched names of a table, in the order in which they were first touched. While no entry of the table moves, their places
/// are kept.
#[derive(Drop)]
pub(crate) enum Touched {
    Places(Places),
    Names(IndexSet<TableKey>),
}

impl Touched {
    /// No name.
    pub(crate) fn new(alloc: Global) -> Self
        ensures { marks_of result ≡ AtPlaces [] }
    {
        Touched::Places(Places::new(alloc))
    }

    /// Touches the name, which has this place. It answers whether it wasn't touched before.
    pub(crate) fn touch(&mut self, place: usize, name: &[u8]) -> Mem<bool>
        ensures new { IfOk result (λ is_new. is_new ≡ not (has_mark (marks_of self.old) place name.now)) }
        ensures ok { OnOk result (marks_of self.new ≡ with_mark (marks_of self.old) place name.now) }
        ensures err { OnErr result (marks_of self.new ≡ marks_of self.old) }
    {
        match self {
            Touched::Places(places) => places.put(place),
            Touched::Names(names) => put_name(names, name),
        }
    }

    /// Takes the name away that was touched last, if there is one.
    pub(crate) fn forget_last(&mut self)
        ensures { marks_of self.new ≡ without_last (marks_of self.old) }
    {
        match self {
            Touched::Places(places) => places.forget_last(),
            Touched::Names(names) => drop_last(names),
        }
    }

    pub(crate) fn is_empty(&self) -> bool
        ensures none { result ≡ has_none (marks_of self.now) }
        ensures apart { AreApart (marks_of self.now) }
    {
        match self {
            Touched::Places(places) => places.is_empty(),
            Touched::Names(names) => is_none_named(names),
        }
    }

    /// Keeps the names themselves from now on, since entries of the table are about to move.
    pub(crate) fn keep_names(&mut self, alloc: Global, items: &IndexMap<TableKey, Item>) -> Mem<()>
        requires { are_within (index_map_len items.now) (marks_of self.old) ≡ true }
        ensures ok { OnOk result (marks_of self.new ≡ AsNames (touched_in (keys items.now) (marks_of self.old))) }
        ensures err { OnErr result (marks_of self.new ≡ marks_of self.old) }
    {
        if let Touched::Places(places) = self {
            let names = names_at(alloc, items, places.as_slice())?;
            let names = set_of(alloc, names.as_slice())?;
            *self = Touched::Names(names);
        }
        Ok(())
    }

    /// The touched names, of which no two are the same.
    pub(crate) fn names<'a>(
        &'a self,
        alloc: Global,
        items: &'a IndexMap<TableKey, Item>,
    ) -> Mem<Vec<&'a [u8]>>
        requires { are_within (index_map_len items.now) (marks_of self.now) ≡ true }
        ensures names { IfOk result (λ names. each (λ name. name.now) names.items ≡ touched_in (keys items.now) (marks_of self.now)) }
        ensures distinct { IsDistinct bytes_eq (touched_in (keys items.now) (marks_of self.now)) }
    {
        match self {
            Touched::Places(places) => names_at(alloc, items, places.as_slice()),
            Touched::Names(names) => names_in(alloc, names),
        }
    }
}

// Puts the name at the end, unless it is there. It answers whether it wasn't.
fn put_name(names: &mut IndexSet<TableKey>, name: &[u8]) -> Mem<bool>
    ensures new { IfOk result (λ is_new. is_new ≡ not (list_any (bytes_eq name.now) names.old.keys)) }
    ensures ok { OnOk result (names.new.keys ≡ touch_of names.old.keys name.now) }
    ensures err { OnErr result (names.new.keys ≡ names.old.keys) }
{
    if names.contains(name) {
        return Ok(false);
    }
    let key = TableKey::new(Text::from_bytes(*names.allocator(), name)?);
    Ok(names.insert(key)?)
}

fn drop_last(names: &mut IndexSet<TableKey>)
    ensures { names.new.keys ≡ take (length names.old.keys - 1) names.old.keys }
{
    let _ = names.pop();
}

fn is_none_named(names: &IndexSet<TableKey>) -> bool
    ensures none { result ≡ is_nil names.now.keys }
    ensures distinct { IsDistinct bytes_eq names.now.keys }
{
    let _names = names.as_slice();
    names.is_empty()
}

// The names at the places.
fn names_at<'a>(
    alloc: Global,
    items: &'a IndexMap<TableKey, Item>,
    places: &[usize],
) -> Mem<Vec<&'a [u8]>>
    requires { are_within (index_map_len items.now) (AtPlaces places.now) ≡ true }
    ensures names { IfOk result (λ names. each (λ name. name.now) names.items ≡ each (name_at (keys items.now)) places.now) }
    ensures distinct { IsDistinct bytes_eq (keys items.now) }
{
    let entries = items.as_slice();
    let mut names = Vec::with_capacity(alloc, places.len())?;
    for place in places {
        let (key, _) = entries.get_index(*place).unwrap();
        names.push(key.bytes())?;
    }
    Ok(names)
}

// The names of the set.
fn names_in<'a>(alloc: Global, set: &'a IndexSet<TableKey>) -> Mem<Vec<&'a [u8]>>
    ensures names { IfOk result (λ names. each (λ name. name.now) names.items ≡ set.now.keys) }
    ensures distinct { IsDistinct bytes_eq set.now.keys }
{
    let mut names = Vec::with_capacity(alloc, set.len())?;
    for key in set.as_slice() {
        names.push(key.bytes())?;
    }
    Ok(names)
}

// The set of the names, each where it comes first.
fn set_of(alloc: Global, names: &[&[u8]]) -> Mem<IndexSet<TableKey>>
    ensures { IfOk result (λ set. set.keys ≡ fold touch_of [] (each (λ name. name.now) names.now)) }
{
    let mut set = IndexSet::new(alloc);
    for name in names {
        set.insert(TableKey::new(Text::from_bytes(alloc, name)?))?;
    }
    Ok(set)
}
