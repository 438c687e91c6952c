// Lines that tell what is done.
ghost use Rattle.std.specs.Prelude.{◌≡◌, ◌++◌, OnOk, OnErr, IfOk};
ghost use Rattle.dc_store.specs.Plans.{op_word as word_of, told_line};

use dc_item::Op;
use dc_text::{Mem, Name, Text};
use std::alloc::Global;

fn op_word(op: &Op) -> &'static [u8]
    ensures { result.now ≡ word_of op.now }
{
    match op {
        Op::Put(_) => b"put",
        Op::SetField(_, _) => b"set-field",
        Op::DropField(_) => b"drop-field",
        Op::SetFlag(_, _) => b"set-flag",
        Op::SetVar(_, _) => b"set-var",
        Op::AddOwner(_) => b"add-owner",
        Op::DropOwners(_) => b"drop-owners",
    }
}

fn line(alloc: Global, op: &Op, name: &Name) -> Mem<Text>
    ensures { IfOk result (λ line. line ≡ told_line op.now name.now) }
{
    let mut line = Text::from_bytes(alloc, b"debug: ")?;
    line.append(op_word(op))?;
    line.push(b' ')?;
    line.append(name.bytes())?;
    line.push(b'\n')?;
    Ok(line)
}

/// Adds the line of an operation that was done.
pub fn tell(alloc: Global, told: &mut Text, op: &Op, name: &Name) -> Mem<()>
    ensures ok { OnOk result (told.new ≡ told.old ++ told_line op.now name.now) }
    ensures err { OnErr result (told.new ≡ told.old) }
{
    let line = line(alloc, op, name)?;
    told.append(line.bytes())?;
    Ok(())
}
