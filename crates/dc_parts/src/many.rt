// Many entries of a map from texts, in a sorted vector.
ghost use Rattle.std.specs.Prelude.{◌≡◌, ◌≤◌, ◌∷◌, ◌++◌, [], T, OnOk, OnErr, IfOk, MatchResult, if◌then◌else◌, not, map as each};
ghost use Rattle.std.specs.Option.{option_copied};
ghost use Rattle.std.specs.FinMap as map;
ghost use Rattle.dc_text.specs.Maps.{text_cmp};
ghost use Rattle.dc_parts.specs.Places.{IsAt, IsGapFor};

use dc_text::{Mem, Text};
use std::alloc::Global;
use std::cmp::Ordering;
use std::marker::Model;

/// A key and its value, behind a pointer, so that few bytes are moved where others are put before them.
#[derive(Drop)]
pub(crate) struct Pair {
    texts: Box<(Text, Text)>,
}

impl Model for Pair {
    ghost use Rattle.std.specs.Prelude.{List, ℕ};
    ghost use Rattle.std.specs.Coded.{coded_ℕ, coded_list, coded×};

    ghost Value = { List ℕ × List ℕ };

    ghost coded = { coded× (coded_list coded_ℕ) (coded_list coded_ℕ) };

    ghost view = { λ p. p.texts.value };
}

impl Pair {
    fn new(alloc: Global, key: Text, value: Text) -> Mem<Self>
        ensures { IfOk result (λ pair. pair ≡ (key, value)) }
    {
        let texts = Box::new(alloc, (key, value))?;
        Ok(Pair { texts })
    }

    pub(crate) fn key(&self) -> &[u8]
        ensures { result.now ≡ self.now.0 }
    {
        self.texts.as_ref().0.bytes()
    }

    pub(crate) fn value(&self) -> &[u8]
        ensures { result.now ≡ self.now.1 }
    {
        self.texts.as_ref().1.bytes()
    }

    fn copy(&self, alloc: Global) -> Mem<Self>
        ensures { IfOk result (λ copy. copy ≡ self.now) }
    {
        let key = Text::from_bytes(alloc, self.key())?;
        let value = Text::from_bytes(alloc, self.value())?;
        Pair::new(alloc, key, value)
    }
}

// The key with its mark in front.
fn marked(alloc: Global, mark: u8, key: &[u8]) -> Mem<Text>
    ensures { IfOk result (λ text. text ≡ mark ∷ key.now) }
{
    let mut text = Text::with_capacity(alloc, key.len() + 1)?;
    text.push(mark)?;
    text.append(key)?;
    Ok(text)
}

// The key with its mark in front, and the value.
fn paired(alloc: Global, mark: u8, key: &[u8], value: &[u8]) -> Mem<Pair>
    ensures { IfOk result (λ pair. pair ≡ (mark ∷ key.now, value.now)) }
{
    let key = marked(alloc, mark, key)?;
    let value = Text::from_bytes(alloc, value)?;
    Pair::new(alloc, key, value)
}

// The order of a text and a key, which is given as its mark and the rest of it.
fn compare(text: &[u8], mark: u8, key: &[u8]) -> Ordering
    ensures { result ≡ text_cmp text.now (mark ∷ key.now) }
{
    match text.split_first() {
        None => Ordering::Less,
        Some((first, rest)) => {
            if *first == mark {
                rest.cmp(key)
            } else {
                first.cmp(&mark)
            }
        }
    }
}

// The place of the entry that has the key, or the place where one would go.
fn search(pairs: &[Pair], mark: u8, key: &[u8]) -> Result<usize, usize>
    requires { T (map.is_sorted text_cmp pairs.now) }
    ensures { MatchResult result (IsAt (mark ∷ key.now) pairs.now) (IsGapFor (mark ∷ key.now) pairs.now) }
{
    pairs.binary_search_by(
        |pair: &Pair| -> Ordering
            ensures { result ≡ text_cmp pair.now.0 (mark ∷ key.entry.now) }
        { compare(pair.key(), mark, key) },
    )
}

// The same, of keys that mostly come behind all others.
fn search_from_end(pairs: &[Pair], mark: u8, key: &[u8]) -> Result<usize, usize>
    requires { T (map.is_sorted text_cmp pairs.now) }
    ensures { MatchResult result (IsAt (mark ∷ key.now) pairs.now) (IsGapFor (mark ∷ key.now) pairs.now) }
{
    if let Some((last, _)) = pairs.split_last() {
        if compare(last.key(), mark, key).is_lt() {
            return Err(pairs.len());
        }
    }
    search(pairs, mark, key)
}

/// A map from texts, for many entries: they are in a sorted vector.
#[derive(Drop)]
pub(crate) struct Many {
    pairs: Vec<Pair>,
}

impl Model for Many {
    ghost use Rattle.std.specs.Prelude.{T, List, ℕ};
    ghost use Rattle.std.specs.FinMap as map;
    ghost use Rattle.std.specs.Coded.{coded_ℕ, coded_list};
    ghost use Rattle.dc_text.specs.Maps.{text_cmp};

    ghost Value = { map.FinMap text_cmp (List ℕ) };

    ghost coded = { map.code (coded_list coded_ℕ) (coded_list coded_ℕ) };

    ghost view = { λ m. map.from_sorted m.pairs.items };

    ghost invariant = { λ m. T (map.is_sorted text_cmp m.pairs.items) };
}

impl Many {
    /// The map of entries that are in order.
    pub(crate) fn from_sorted(alloc: Global, entries: &[(&[u8], &[u8])]) -> Mem<Self>
        requires { T (map.is_sorted text_cmp (each (λ e. (e.0.now, e.1.now)) entries.now)) }
        ensures { IfOk result (λ many. many ≡ map.from_sorted (each (λ e. (e.0.now, e.1.now)) entries.now)) }
    {
        let mut pairs = Vec::with_capacity(alloc, entries.len())?;
        for (key, value) in entries {
            let key = Text::from_bytes(alloc, key)?;
            let value = Text::from_bytes(alloc, value)?;
            pairs.push(Pair::new(alloc, key, value)?)?;
        }
        Ok(Many { pairs })
    }

    /// The value at the key, if there is one.
    pub(crate) fn get(&self, mark: u8, key: &[u8]) -> Option<&[u8]>
        ensures { option_copied result ≡ map.get self.now (mark ∷ key.now) }
    {
        match search(&self.pairs, mark, key) {
            Ok(place) => Some(self.pairs[place].value()),
            Err(_) => None,
        }
    }

    /// Puts the value at the key, in the place of one that stood there.
    pub(crate) fn insert(&mut self, mark: u8, key: &[u8], value: &[u8]) -> Mem<()>
        ensures ok { OnOk result (self.new ≡ map.insert self.old (mark ∷ key.now) value.now) }
        ensures err { OnErr result (self.new ≡ self.old) }
    {
        let pair = paired(*self.pairs.allocator(), mark, key, value)?;
        match search_from_end(&self.pairs, mark, key) {
            Ok(place) => {
                self.pairs[place] = pair;
                Ok(())
            }
            Err(place) => {
                self.pairs.insert(place, pair)?;
                Ok(())
            }
        }
    }

    /// Puts the value at a key that isn't there, and answers whether it wasn't.
    pub(crate) fn insert_new(&mut self, mark: u8, key: &[u8], value: &[u8]) -> Mem<bool>
        ensures new { IfOk result (λ is_new. is_new ≡ not (map.contains_key self.old (mark ∷ key.now))) }
        ensures put { IfOk result (λ is_new. self.new ≡ (if is_new then map.insert self.old (mark ∷ key.now) value.now else self.old)) }
        ensures err { OnErr result (self.new ≡ self.old) }
    {
        match search_from_end(&self.pairs, mark, key) {
            Ok(_) => Ok(false),
            Err(place) => {
                let pair = paired(*self.pairs.allocator(), mark, key, value)?;
                self.pairs.insert(place, pair)?;
                Ok(true)
            }
        }
    }

    /// Takes the key and its value away, if they are there. It takes no memory.
    pub(crate) fn remove(&mut self, mark: u8, key: &[u8])
        ensures { self.new ≡ map.remove self.old (mark ∷ key.now) }
    {
        if let Ok(place) = search(&self.pairs, mark, key) {
            let _ = self.pairs.remove(place);
        }
    }

    /// Hands out the entries in memory of just their size, and forgets them.
    pub(crate) fn take(&mut self) -> Self
        ensures taken { result ≡ self.old }
        ensures left { self.new ≡ map.empty }
    {
        self.pairs.shrink_to_fit();
        let fresh = Vec::new(*self.pairs.allocator());
        Many {
            pairs: std::mem::replace(&mut self.pairs, fresh),
        }
    }

    /// The entries, in byte order of their keys. They aren't copied.
    pub(crate) fn pairs(&self) -> &[Pair]
        ensures { result.now ≡ map.entries self.now }
    {
        self.pairs.as_slice()
    }

    /// The entries, in byte order of their keys.
    pub(crate) fn entries(&self) -> Mem<Vec<(&[u8], &[u8])>>
        ensures { IfOk result (λ es. each (λ e. (e.0.now, e.1.now)) es.items ≡ map.entries self.now) }
    {
        let mut entries = Vec::with_capacity(*self.pairs.allocator(), self.pairs.len())?;
        for pair in &self.pairs {
            entries.push((pair.key(), pair.value()))?;
        }
        Ok(entries)
    }

    /// An equal map.
    pub(crate) fn copy(&self) -> Mem<Self>
        ensures { IfOk result (λ copy. copy ≡ self.now) }
    {
        let alloc = *self.pairs.allocator();
        let mut pairs = Vec::with_capacity(alloc, self.pairs.len())?;
        for pair in &self.pairs {
            pairs.push(pair.copy(alloc)?)?;
        }
        Ok(Many { pairs })
    }
}
