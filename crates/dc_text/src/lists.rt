// A list that grows at its end.
ghost use Rattle.std.specs.Prelude.{◌≡◌, ◌<◌, ◌≤◌, ◌∷◌, ◌++◌, [], OnOk, OnErr, IfOk, MatchOption, length, slice_get};
ghost use Rattle.std.specs.List as listed;
ghost use Rattle.std.specs.Option.{option_copied};

use crate::memory::Mem;
use std::alloc::Global;
use std::marker::Model;

/// A value of which a copy takes memory.
pub trait Copied {
    /// A value that is equal to this one.
    fn copied(&self) -> Mem<Self>
        ensures { IfOk result (λ copy. copy ≡ self.now) };
}

impl Copied for () {
    fn copied(&self) -> Mem<Self> {
        Ok(())
    }
}

/// A list of values.
#[derive(Drop)]
pub struct List<T> {
    items: Vec<T>,
}

impl<T> Model for List<T> {
    ghost use Rattle.std.specs.Prelude.{List as Listed};

    ghost Value = { Listed T };

    ghost view = { λ l. l.items.items };
}

impl<T> List<T> {
    /// The empty list.
    pub fn new(alloc: Global) -> Self
        ensures { result ≡ [] }
    {
        List {
            items: Vec::new(alloc),
        }
    }

    pub fn len(&self) -> usize
        ensures { result ≡ length self.now }
    {
        self.items.len()
    }

    pub fn get(&self, place: usize) -> Option<&T>
        ensures { option_copied result ≡ slice_get self.now place }
    {
        self.items.get(place)
    }

    pub fn as_slice(&self) -> &[T]
        ensures { result.now ≡ self.now }
    {
        self.items.as_slice()
    }
}

impl<T: Drop> List<T> {
    pub fn push(&mut self, value: T) -> Mem<()>
        ensures ok { OnOk result (self.new ≡ self.old ++ value ∷ []) }
        ensures err { OnErr result (self.new ≡ self.old) }
    {
        self.items.push(value)?;
        Ok(())
    }

    /// Takes the last value, if there is one.
    pub fn pop(&mut self) -> Option<T>
        ensures { MatchOption result ((self.old ≡ []) × (self.new ≡ [])) (λ last. self.old ≡ self.new ++ last ∷ []) }
    {
        self.items.pop()
    }

    /// Puts the value at the place, before those that stand from there on.
    pub fn insert(&mut self, place: usize, value: T) -> Mem<()>
        requires { place ≤ length self.old }
        ensures ok { OnOk result (self.new ≡ listed.insert self.old place value) }
        ensures err { OnErr result (self.new ≡ self.old) }
    {
        self.items.insert(place, value)?;
        Ok(())
    }

    /// Takes the value at the place away.
    pub fn remove(&mut self, place: usize)
        requires { place < length self.old }
        ensures { self.new ≡ listed.remove self.old place }
    {
        let _ = self.items.remove(place);
    }
}

impl<T: Copied + Drop> List<T> {
    /// A list of copies.
    pub fn copy(&self) -> Mem<Self>
        ensures { IfOk result (λ copy. copy ≡ self.now) }
    {
        let mut copy = List::new(*self.items.allocator());
        for value in self.as_slice() {
            copy.push(value.copied()?)?;
        }
        Ok(copy)
    }
}
