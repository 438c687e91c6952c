// What a crash leaves of files in memory.
ghost use Rattle.std.specs.Prelude.{◌≡◌, ◌∷◌, ℕ, List, IfOk, OnOk, None, unwrap_or, option_map};
ghost use Rattle.std.specs.Option.{option_copied};
ghost use Rattle.std.specs.FinMap as map;
ghost use Rattle.dc_outside.specs.Disk.{Allows, with_entry, outcome_at};
ghost use Rattle.dc_outside.specs.Crash.{oldest_of, listed_by, entry_before, unlisted_by, IsLeftBy};

use crate::disk_state::{CrashOutcome, DiskState, Stored, copied_entry};
use dc_text::{Mem, Text, TextMap};
use std::alloc::Global;

/// Which of the entries that a crash may leave it leaves.
#[derive(Clone, Copy, Debug, PartialEq, Eq)]
pub enum Pick {
    /// Each entry from before.
    Oldest,
    /// The new ones.
    Newest,
    /// No bytes at each path that isn't synced, and elsewhere each entry from before.
    Junk,
}

const JUNK_MODE: u16 = 0o600;

// The oldest entry that a crash may leave at the path, where not anything is possible there.
fn oldest_at<'a>(path: &[u8], current: &'a DiskState) -> Option<Option<&'a Stored>>
    ensures { option_map option_copied result ≡ oldest_of (outcome_at current.now path.now) }
{
    match current.pending.get(path) {
        Some(outcome) => match outcome.oldest() {
            Some(entry) => Some(entry.as_ref()),
            None => None,
        },
        None => Some(current.files.get(path)),
    }
}

// The entry from before the path was written.
fn entry_before<'a>(path: &[u8], past: &'a [DiskState]) -> Option<&'a Stored>
    ensures { option_copied result ≡ entry_before path.now None past.now }
{
    let mut last = None;
    for current in past {
        match oldest_at(path, current) {
            Some(entry) => last = entry,
            None => {}
        }
    }
    last
}

// The entry that the crash leaves where anything may be left.
fn unlisted(
    alloc: Global,
    pick: Pick,
    path: &[u8],
    current: &DiskState,
    past: &[DiskState],
) -> Mem<Option<Stored>>
    ensures { IfOk result (λ entry. entry ≡ unlisted_by pick (record { current = current.now; past = past.now }) path.now) }
{
    match pick {
        Pick::Oldest => copied_entry(entry_before(path, past)),
        Pick::Newest => copied_entry(current.files.get(path)),
        Pick::Junk => Ok(Some(Stored {
            bytes: Text::new(alloc),
            mode: JUNK_MODE,
        })),
    }
}

// The entry that the crash leaves at a path where this may be left.
fn picked(
    alloc: Global,
    pick: Pick,
    path: &[u8],
    outcome: &CrashOutcome,
    current: &DiskState,
    past: &[DiskState],
) -> Mem<Option<Stored>>
    ensures picked { IfOk result (λ entry. entry
        ≡ unwrap_or (listed_by pick outcome.now) (unlisted_by pick (record { current = current.now; past = past.now }) path.now)) }
    ensures allowed { IfOk result (λ entry. Allows outcome.now entry) }
{
    let listed = match pick {
        Pick::Oldest | Pick::Junk => outcome.oldest(),
        Pick::Newest => outcome.newest(),
    };
    match listed {
        Some(entry) => copied_entry(entry.as_ref()),
        None => unlisted(alloc, pick, path, current, past),
    }
}

// The entry that the crash leaves at the path.
fn picked_at(
    alloc: Global,
    pick: Pick,
    path: &[u8],
    current: &DiskState,
    past: &[DiskState],
) -> Mem<Option<Stored>>
    ensures { IfOk result (λ entry. IsLeftBy pick (record { current = current.now; past = past.now }) path.now entry) }
{
    match current.pending.get(path) {
        Some(outcome) => picked(alloc, pick, path, outcome, current, past),
        None => copied_entry(current.files.get(path)),
    }
}

// Puts the entry at the path, a file or none.
fn put(files: &mut TextMap<Stored>, path: Text, entry: Option<Stored>) -> Mem<()>
    ensures { OnOk result (files.new ≡ with_entry files.old path entry) }
{
    match entry {
        Some(file) => files.insert(path, file),
        None => {
            files.remove(path.bytes());
            Ok(())
        }
    }
}

// The files that a crash leaves.
pub(crate) fn left_files(
    alloc: Global,
    pick: Pick,
    current: &DiskState,
    past: &[DiskState],
) -> Mem<TextMap<Stored>>
    ensures { IfOk result (λ files. (path : List ℕ) → IsLeftBy pick (record { current = current.now; past = past.now }) path (map.get files path)) }
{
    let mut files = current.files.copy()?;
    for (path, _) in current.pending.iter() {
        let entry = picked_at(alloc, pick, path, current, past)?;
        put(&mut files, Text::from_bytes(alloc, path)?, entry)?;
    }
    Ok(files)
}
