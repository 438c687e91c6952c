// Names in the order in which they were added.
ghost use Rattle.std.specs.Prelude.{◌≡◌, [], true, IfOk, OnOk, OnErr, map as each, fold};
ghost use Rattle.std.specs.List.{All, find};
ghost use Rattle.std.specs.Option.{option_copied};
ghost use Rattle.dc_text.specs.Names.{is_name};
ghost use Rattle.dc_text.specs.Maps.{AreDistinct};
ghost use Rattle.dc_session.specs.Asking.{is_among, with_name};

use dc_text::{List, Mem, Name, NameRefused, OutOfMemory};
use indexmap::IndexSet;
use std::alloc::Global;
use std::marker::Model;

/// Names, each once, in the order in which they were added.
#[derive(Drop)]
pub struct NameSet {
    alloc: Global,
    marks: IndexSet<Vec<u8>>,
}

impl Model for NameSet {
    ghost use Rattle.std.specs.Prelude.{◌≡◌, List, ℕ, true, map as each};
    ghost use Rattle.std.specs.List.{AllByRecursion};
    ghost use Rattle.dc_text.specs.Maps.{AreDistinct};
    ghost use Rattle.dc_text.specs.Names.{is_name};

    ghost Value = { List (List ℕ) };

    ghost view = { λ s. each (λ k. k.items) s.marks.keys };

    ghost invariant = { λ s. AllByRecursion (λ n. is_name n ≡ true) (each (λ k. k.items) s.marks.keys) × AreDistinct (each (λ k. k.items) s.marks.keys) };
}

impl NameSet {
    /// No names.
    pub fn new(alloc: Global) -> NameSet
        ensures { result ≡ [] }
    {
        NameSet {
            alloc,
            marks: IndexSet::new(alloc),
        }
    }

    /// Adds the name at the end, unless it is there.
    pub fn add(&mut self, name: &Name) -> Mem<()>
        ensures added { OnOk result (self.new ≡ with_name self.old name.now) }
        ensures err { OnErr result (self.new ≡ self.old) }
    {
        let mark = name.copy()?.into_text().into_vec()?;
        self.marks.insert(mark)?;
        Ok(())
    }

    /// Whether the name is there.
    pub fn contains(&self, name: &Name) -> bool
        ensures { result ≡ is_among self.now name.now }
    {
        self.marks.contains(name.bytes())
    }

    /// Takes all names away.
    pub fn clear(&mut self)
        ensures { self.new ≡ [] }
    {
        self.marks.clear();
    }

    /// The names, in order.
    pub fn names(&self) -> Mem<List<Name>>
        ensures names { IfOk result (λ names. names ≡ self.now) }
        ensures distinct { AreDistinct self.now }
    {
        read_names(self.alloc, self.marks.as_slice())
    }
}

// The names that these bytes are.
fn read_names(alloc: Global, marks: &[Vec<u8>]) -> Mem<List<Name>>
    requires { All (λ k. is_name k.items ≡ true) marks.now }
    ensures { IfOk result (λ names. names ≡ each (λ k. k.items) marks.now) }
{
    let mut names = List::new(alloc);
    for mark in marks {
        names.push(known(alloc, mark.as_slice())?)?;
    }
    Ok(names)
}

// The name that these bytes are.
fn known(alloc: Global, bytes: &[u8]) -> Mem<Name>
    requires { is_name bytes.now ≡ true }
    ensures { IfOk result (λ name. name ≡ bytes.now) }
{
    match Name::read(alloc, bytes) {
        Ok(name) => Ok(name),
        Err(NameRefused::OutOfMemory) => Err(OutOfMemory),
        Err(NameRefused::Bad) => unreachable!(),
    }
}

/// Adds the names at the end, each unless it is there. Where memory runs out, some are added.
pub fn add_all(set: &mut NameSet, names: &[Name]) -> Mem<()>
    ensures { OnOk result (set.new ≡ fold with_name set.old names.now) }
{
    for name in names {
        set.add(name)?;
    }
    Ok(())
}

/// The first of the names that is in the set.
pub fn first_among<'n>(set: &NameSet, names: &'n [Name]) -> Option<&'n Name>
    ensures { option_copied result ≡ find (is_among set.now) names.now }
{
    names.iter().find(|name| set.contains(name))
}
