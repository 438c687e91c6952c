// What files in memory hold at a moment, and what a crash then may leave.
ghost use Rattle.std.specs.Prelude.{◌≡◌, ◌∷◌, ◌++◌, [], None, Some, IfOk, unwrap_or};
ghost use Rattle.std.specs.Option.{option_copied};
ghost use Rattle.std.specs.FinMap as map;
ghost use Rattle.dc_outside.specs.Disk.{OneOf, Anything, either, outcome_at, with_outcome, with_entry, open_at, durable_at, names_durable, with_rename, with_removal, renamed, is_anything, moved_outcome};
ghost use Rattle.dc_outside.specs.Crash.{oldest_of, newest_of, IsOneOf};

use dc_text::{Copied, List, Mem, Text, TextMap};
use std::alloc::Global;
use std::marker::Model;

#[derive(Drop)]
pub(crate) struct Stored {
    pub bytes: Text,
    pub mode: u16,
}

impl Model for Stored {
    ghost use Rattle.dc_outside.specs.Disk.{File};

    ghost Value = { File };

    ghost view = { λ s. record { bytes = s.bytes; mode = s.mode } };
}

impl Copied for Stored {
    fn copied(&self) -> Mem<Self> {
        Ok(Stored {
            bytes: self.bytes.copy()?,
            mode: self.mode,
        })
    }
}

// Entries that a crash may leave at a path.
#[derive(Drop)]
pub(crate) struct Entries {
    pub first: Option<Stored>,
    pub more: List<Option<Stored>>,
}

// What a crash may leave at a path: one of these entries, or anything where there is no list of them.
#[derive(Drop)]
pub(crate) struct CrashOutcome {
    alloc: Global,
    pub entries: Option<Entries>,
}

impl Model for CrashOutcome {
    ghost use Rattle.std.specs.Prelude.{◌∷◌};
    ghost use Rattle.dc_outside.specs.Disk.{CrashOutcome as AnOutcome, outcome_code};
    ghost use Rattle.dc_outside.specs.MemoryOutcome.{outcome_in};

    ghost Value = { AnOutcome };

    ghost coded = { outcome_code };

    ghost view = { λ o. outcome_in o.entries };
}

impl Copied for CrashOutcome {
    fn copied(&self) -> Mem<Self> {
        match &self.entries {
            Some(entries) => Ok(CrashOutcome {
                alloc: self.alloc,
                entries: Some(Entries {
                    first: copied_entry(entries.first.as_ref())?,
                    more: with_copies(List::new(self.alloc), &entries.more)?,
                }),
            }),
            None => Ok(CrashOutcome::anything(self.alloc)),
        }
    }
}

// The same entry.
pub(crate) fn copied_entry(entry: Option<&Stored>) -> Mem<Option<Stored>>
    ensures { IfOk result (λ copy. copy ≡ option_copied entry.entry) }
{
    match entry {
        Some(file) => Ok(Some(file.copied()?)),
        None => Ok(None),
    }
}

// The list, and then copies of the entries.
fn with_copies(
    list: List<Option<Stored>>,
    entries: &List<Option<Stored>>,
) -> Mem<List<Option<Stored>>>
    ensures { IfOk result (λ all. all ≡ list ++ entries.now) }
{
    let mut all = list;
    for entry in entries.as_slice() {
        all.push(copied_entry(entry.as_ref())?)?;
    }
    Ok(all)
}

// All entries of the two.
fn joined(entries: Entries, others: &Entries) -> Mem<Entries>
    ensures first { IfOk result (λ all. all.first ≡ entries.first) }
    ensures more { IfOk result (λ all. all.more ≡ entries.more ++ others.now.first ∷ others.now.more) }
{
    let Entries { first, more } = entries;
    let mut all = more;
    all.push(copied_entry(others.first.as_ref())?)?;
    Ok(Entries {
        first,
        more: with_copies(all, &others.more)?,
    })
}

impl CrashOutcome {
    fn anything(alloc: Global) -> CrashOutcome
        ensures { result ≡ Anything }
    {
        CrashOutcome {
            alloc,
            entries: None,
        }
    }

    fn one(alloc: Global, entry: Option<Stored>) -> CrashOutcome
        ensures { result ≡ OneOf (entry ∷ []) }
    {
        CrashOutcome {
            alloc,
            entries: Some(Entries {
                first: entry,
                more: List::new(alloc),
            }),
        }
    }

    fn is_anything(&self) -> bool
        ensures { result ≡ is_anything (Some self.now) }
    {
        self.entries.is_none()
    }

    // The first of the entries, where there is a list of them.
    pub fn oldest(&self) -> Option<&Option<Stored>>
        ensures oldest { option_copied result ≡ oldest_of self.now }
        ensures one { IsOneOf self.now (option_copied result) }
    {
        match &self.entries {
            Some(entries) => Some(&entries.first),
            None => None,
        }
    }

    // The last of them.
    pub fn newest(&self) -> Option<&Option<Stored>>
        ensures newest { option_copied result ≡ newest_of self.now }
        ensures one { IsOneOf self.now (option_copied result) }
    {
        match &self.entries {
            Some(entries) => match entries.more.as_slice().last() {
                Some(entry) => Some(entry),
                None => Some(&entries.first),
            },
            None => None,
        }
    }

    // Either outcome.
    fn or(self, other: &CrashOutcome) -> Mem<CrashOutcome>
        ensures { IfOk result (λ both. both ≡ either self other.now) }
    {
        let CrashOutcome { alloc, entries } = self;
        match (entries, &other.entries) {
            (Some(entries), Some(others)) => Ok(CrashOutcome {
                alloc,
                entries: Some(joined(entries, others)?),
            }),
            _ => Ok(CrashOutcome::anything(alloc)),
        }
    }
}

#[derive(Drop)]
pub(crate) struct DiskState {
    pub files: TextMap<Stored>,
    pub pending: TextMap<CrashOutcome>,
}

impl Model for DiskState {
    ghost use Rattle.dc_outside.specs.Disk.{DiskState as AStanding, standing_code};

    ghost Value = { AStanding };

    ghost coded = { standing_code };

    ghost view = { λ s. record { files = s.files; pending = s.pending } };
}

impl DiskState {
    pub fn copy(&self) -> Mem<DiskState>
        ensures { IfOk result (λ copy. copy ≡ self.now) }
    {
        Ok(DiskState {
            files: self.files.copy()?,
            pending: self.pending.copy()?,
        })
    }

    fn outcome_at(&self, alloc: Global, path: &Text) -> Mem<CrashOutcome>
        ensures { IfOk result (λ outcome. outcome ≡ outcome_at self.now path.now) }
    {
        match self.pending.get(path.bytes()) {
            Some(outcome) => outcome.copied(),
            None => Ok(CrashOutcome::one(alloc, copied_entry(self.files.get(path.bytes()))?)),
        }
    }

    // What a crash may leave where the file at the path is put.
    fn moved_outcome(&self, alloc: Global, path: &Text) -> Mem<CrashOutcome>
        ensures { IfOk result (λ outcome. outcome ≡ moved_outcome self.now path.now) }
    {
        if is_open(&self.pending, path.bytes()) {
            return Ok(CrashOutcome::anything(alloc));
        }
        let file = copied_entry(self.files.get(path.bytes()))?;
        Ok(CrashOutcome::one(alloc, file))
    }

    // A crash may leave this at the path too.
    fn with_outcome(self, alloc: Global, path: &Text, outcome: &CrashOutcome) -> Mem<DiskState>
        ensures { IfOk result (λ new. new ≡ with_outcome self path.now outcome.now) }
    {
        let mut new = self;
        let both = new.outcome_at(alloc, path)?.or(outcome)?;
        new.pending.insert(path.copy()?, both)?;
        Ok(new)
    }

    pub fn written(self, alloc: Global, path: &Text, file: Stored) -> Mem<DiskState>
        ensures { IfOk result (λ new. new ≡ open_at self path.now (Some file)) }
    {
        let mut new = self;
        new.files.insert(path.copy()?, file)?;
        new.pending
            .insert(path.copy()?, CrashOutcome::anything(alloc))?;
        Ok(new)
    }

    pub fn synced(self, path: &Text) -> DiskState
        ensures { result ≡ durable_at self path.now }
    {
        let mut new = self;
        new.pending.remove(path.bytes());
        new
    }

    pub fn removed(self, alloc: Global, path: &Text) -> Mem<DiskState>
        ensures { IfOk result (λ new. new ≡ record (with_removal self path.now) { files = map.remove self.files path.now }) }
    {
        let none = CrashOutcome::one(alloc, None);
        let mut new = self.with_outcome(alloc, path, &none)?;
        new.files.remove(path.bytes());
        Ok(new)
    }

    pub fn renamed(self, alloc: Global, from: &Text, to: &Text, file: Stored) -> Mem<DiskState>
        requires { map.get self.files from.now ≡ Some file }
        ensures { IfOk result (λ new. new ≡ record (with_rename self from.now to.now) { files = renamed self.files from.now to.now }) }
    {
        let mut new = self.with_rename(alloc, from, to)?;
        new.files.remove(from.bytes());
        new.files.insert(to.copy()?, file)?;
        Ok(new)
    }

    pub fn names_synced(self, alloc: Global) -> Mem<DiskState>
        ensures { IfOk result (λ new. new ≡ names_durable self) }
    {
        let DiskState { files, pending } = self;
        Ok(DiskState {
            files,
            pending: still_open(alloc, &pending)?,
        })
    }

    fn with_rename(self, alloc: Global, from: &Text, to: &Text) -> Mem<DiskState>
        ensures { IfOk result (λ new. new ≡ with_rename self from.now to.now) }
    {
        let moved = self.moved_outcome(alloc, from)?;
        let none = CrashOutcome::one(alloc, None);
        self.with_outcome(alloc, to, &moved)?
            .with_outcome(alloc, from, &none)
    }
}

// Whether anything may stand at the path after a crash.
fn is_open(pending: &TextMap<CrashOutcome>, path: &[u8]) -> bool
    ensures { result ≡ is_anything (map.get pending.now path.now) }
{
    match pending.get(path) {
        Some(outcome) => outcome.is_anything(),
        None => false,
    }
}

// What stays pending when names are synced.
fn still_open(alloc: Global, pending: &TextMap<CrashOutcome>) -> Mem<TextMap<CrashOutcome>>
    ensures { IfOk result (λ kept. kept ≡ map.retain_keys pending.now (λ path. is_anything (map.get pending.now path))) }
{
    let mut kept = TextMap::new(alloc);
    for (path, _) in pending.iter() {
        if is_open(pending, path) {
            kept.insert(
                Text::from_bytes(alloc, path)?,
                CrashOutcome::anything(alloc),
            )?;
        }
    }
    Ok(kept)
}
