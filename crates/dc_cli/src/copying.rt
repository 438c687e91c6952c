// What a tool keeps of its words.
ghost use Rattle.std.specs.Prelude.{◌≡◌, IfOk, true};
ghost use Rattle.dc_text.specs.Names.{is_name as is_name_of};

use dc_text::{List, Mem, Name, OutOfMemory, Text};
use std::alloc::Global;

pub(crate) fn read_owner(alloc: Global, bytes: &[u8]) -> Mem<Name>
    requires { is_name_of bytes.now ≡ true }
    ensures { IfOk result (λ owner. owner ≡ bytes.now) }
{
    match Name::read(alloc, bytes) {
        Ok(owner) => Ok(owner),
        Err(_) => Err(OutOfMemory),
    }
}

pub(crate) fn copies(alloc: Global, words: &[Text]) -> Mem<List<Text>>
    ensures { IfOk result (λ list. list ≡ words.now) }
{
    let mut list = List::new(alloc);
    for word in words {
        list.push(word.copy()?)?;
    }
    Ok(list)
}
