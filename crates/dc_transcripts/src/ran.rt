// A run that has ended.
use crate::ends::append_end;
use crate::playing::Played;
use crate::telling::append_lines;
use dc_outside::{MemChild, MemLink};
use dc_text::Text;
use std::alloc::Global;

/// The links of a run, and how it ended.
#[derive(Drop)]
pub struct Ran {
    pub io: MemLink,
    pub err: MemLink,
    pub child: MemChild,
    pub played: Played,
}

impl Ran {
    /// Adds what was said, and how the run ended.
    pub fn tell(&self, alloc: Global, told: &mut Text) -> Option<()> {
        append_started(alloc, told, &self.child)?;
        append_lines(alloc, told, b">", self.io.sent().bytes())?;
        append_lines(alloc, told, b"!", self.err.sent().bytes())?;
        append_end(alloc, told, &self.played.outcome)?;
        told.append(self.played.held.bytes()).ok()
    }
}

// With which words the program was started, and what was written to it, where it was.
fn append_started(alloc: Global, told: &mut Text, child: &MemChild) -> Option<()> {
    let Some(words) = child.words() else {
        return Some(());
    };
    told.append(b"started:").ok()?;
    for word in words.as_slice() {
        told.push(b' ').ok()?;
        told.append(word.bytes()).ok()?;
    }
    told.push(b'\n').ok()?;
    append_lines(alloc, told, b"@", child.sent().bytes())
}
