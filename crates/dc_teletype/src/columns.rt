// Text as a terminal shows it.
ghost use Rattle.std.specs.Prelude.{◌≡◌, ◌++◌, IfOk, OnOk};
ghost use Rattle.std.specs.Str.Lossy.{utf8_lossy};
ghost use Rattle.dc_teletype.specs.Columns.{columns_of as columns_of_text};

use bstr::ByteSlice;
use dc_text::{Mem, Text};
use std::alloc::Global;
use unicode_width::UnicodeWidthStr;

/// Appends the bytes as they are shown, with U+FFFD for what isn't UTF-8.
#[tactic(auto, using(crate::proofs::ShownLemmas::shown))]
pub fn append_shown(alloc: Global, text: &mut Text, bytes: &[u8]) -> Mem<()>
    ensures { OnOk result (text.new ≡ text.old ++ utf8_lossy bytes.now) }
{
    let shown = bytes.to_str_lossy(alloc)?;
    text.append(shown.as_str().as_bytes())
}

/// The columns that the text takes.
#[tactic(auto, using(crate::proofs::ShownLemmas::shown))]
pub fn columns_of(alloc: Global, text: &[u8]) -> Mem<usize>
    ensures { IfOk result (λ columns. columns ≡ columns_of_text text.now) }
{
    let shown = text.to_str_lossy(alloc)?;
    Ok(shown.as_str().width())
}
