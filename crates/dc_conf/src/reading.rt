// The stanzas of a text.
ghost use Rattle.std.specs.Prelude.{◌≡◌, IfOk, MatchResult, OnOk, Ok, map as each};
ghost use Rattle.dc_text.specs.Bytes.{lower, trimmed};

use crate::faults::{ConfError, ConfKind};
use crate::fields::Field;
use dc_text::bytes::{is_blank, split_at_byte, split_line, trim};
use dc_text::{List, Mem, Text, TextMap};
use std::alloc::Global;

/// The stanzas of the lines so far.
#[derive(Drop)]
pub struct Gathered {
    pub done: List<List<Field>>,
    /// The fields of the stanza that a blank line hasn't ended yet.
    pub open_stanza: List<Field>,
    /// Their keys.
    pub keys: TextMap<()>,
}

ghost use Rattle.dc_conf.specs.Stanzas.{is_comment as is_comment_of};
ghost use Rattle.dc_conf.specs.Machine.{at_start, finished, ended, with_field, step, stanzas_read, IsRefusal};

/// The stanzas of a text. Where a line has a fault, the error is the first.
pub fn read_stanzas(alloc: Global, text: &[u8]) -> Result<List<List<Field>>, ConfError>
    ensures { MatchResult result (λ stanzas. stanzas_read text.now ≡ Ok stanzas) (IsRefusal (stanzas_read text.now)) }
{
    let mut gathered = Gathered::new(alloc);
    let mut rest = text;
    let mut number = 0u64;
    while !rest.is_empty() {
        let (line, after) = split_line(rest);
        number += 1;
        gathered.take(alloc, number, line)?;
        rest = after;
    }
    let stanzas = gathered.finish()?;
    Ok(stanzas)
}

impl Gathered {
    fn new(alloc: Global) -> Self
        ensures { result ≡ at_start }
    {
        Gathered {
            done: List::new(alloc),
            open_stanza: List::new(alloc),
            keys: TextMap::new(alloc),
        }
    }

    // Takes a line.
    fn take(&mut self, alloc: Global, number: u64, line: &[u8]) -> Result<(), ConfError>
        ensures { MatchResult result
            (λ _. step self.old (record { number = number; text = line.now }) ≡ Ok self.new)
            (IsRefusal (step self.old (record { number = number; text = line.now }))) }
    {
        if is_comment(line) {
            return Ok(());
        }
        if is_blank(line) {
            self.end(alloc)?;
            return Ok(());
        }
        match split_at_byte(line, b':') {
            None => Err(ConfError::Refused {
                line: number,
                kind: ConfKind::NoColon,
            }),
            Some((key, value)) => {
                let field = read_field(alloc, number, key, value)?;
                self.add(field)
            }
        }
    }

    // Ends the stanza.
    fn end(&mut self, alloc: Global) -> Mem<()>
        ensures { OnOk result (self.new ≡ ended self.old) }
    {
        let stanza = std::mem::replace(&mut self.open_stanza, List::new(alloc));
        self.keys = TextMap::new(alloc);
        if stanza.len() == 0 {
            Ok(())
        } else {
            self.done.push(stanza)
        }
    }

    fn add(&mut self, field: Field) -> Result<(), ConfError>
        ensures { MatchResult result (λ _. with_field self.old field ≡ Ok self.new) (IsRefusal (with_field self.old field)) }
    {
        if self.keys.contains(field.key.bytes()) {
            return Err(ConfError::Refused {
                line: field.line,
                kind: ConfKind::Twice,
            });
        }
        self.keys.insert(field.key.copy()?, ())?;
        self.open_stanza.push(field)?;
        Ok(())
    }

    // The stanzas, where no line comes.
    fn finish(self) -> Mem<List<List<Field>>>
        ensures { IfOk result (λ stanzas. stanzas ≡ finished self) }
    {
        let Gathered {
            done,
            open_stanza,
            keys: _,
        } = self;
        let mut stanzas = done;
        if open_stanza.len() != 0 {
            stanzas.push(open_stanza)?;
        }
        Ok(stanzas)
    }
}

fn is_comment(line: &[u8]) -> bool
    ensures { result ≡ is_comment_of line.now }
{
    match line {
        [] => false,
        [first, ..] => *first == b'#',
    }
}

// The field of a line with these bytes before and after its colon.
fn read_field(alloc: Global, line: u64, key: &[u8], value: &[u8]) -> Mem<Field>
    ensures { IfOk result (λ field. field ≡ record { line = line; key = each lower (trimmed key.now); value = trimmed value.now }) }
{
    let key = Text::lowered(alloc, trim(key))?;
    let value = Text::from_bytes(alloc, trim(value))?;
    Ok(Field { line, key, value })
}
