// The entries of a map, one after another.
use crate::many::Pair;
use crate::packed_entries::PackedEntries;

// The entries that are left.
pub(crate) enum Left<'a> {
    Few(PackedEntries<'a>),
    Many(&'a [Pair]),
}

// Written out, so that to let the entries go is one step in what is proved of their users.
impl<'a> Drop for Left<'a> {
    fn drop(self) {
        match self {
            Left::Few(_) => {}
            Left::Many(_) => {}
        }
    }
}

/// The entries of a map, in byte order of their keys, which have their marks in front. To go over them takes no memory.
#[derive(Drop)]
pub struct Entries<'a> {
    pub(crate) left: Left<'a>,
}

impl<'a> Iterator for Entries<'a> {
    ghost use Rattle.std.specs.Iterator.{YieldsFirstBy, item_count};
    ghost use Rattle.dc_parts.specs.Entries.{entries_left};

    type Item = (&'a [u8], &'a [u8]);

    ghost next_gives = { YieldsFirstBy (λ e. (e.0.now, e.1.now)) entries_left };

    ghost remaining = { item_count entries_left };

    fn next(&mut self) -> Option<(&'a [u8], &'a [u8])> {
        match &mut self.left {
            Left::Few(few) => few.next(),
            Left::Many(pairs) => {
                let all = *pairs;
                let (first, rest) = all.split_first()?;
                *pairs = rest;
                Some((first.key(), first.value()))
            }
        }
    }
}
