// Values as they are kept: a newline, where a written value has the pair of a backslash and an n.
ghost use Rattle.std.specs.Prelude.{◌≡◌, ◌∷◌, ◌<◌, IfOk, MatchOption, length, true};
ghost use Rattle.dc_text.specs.Ascii.{backslash, newline};
ghost use Rattle.dc_text.specs.Settled.{settled, is_settled, newlines_shown};

use crate::bytes::split_at_byte;
use crate::lists::Copied;
use crate::memory::Mem;
use crate::texts::Text;
use std::alloc::Global;
use std::marker::Model;

/// A text without the pair of bytes backslash and n.
#[derive(Drop)]
pub struct Settled {
    text: Text,
}

impl Model for Settled {
    ghost use Rattle.std.specs.Prelude.{List, ℕ, IsTrue};
    ghost use Rattle.dc_text.specs.Settled.{is_settled};

    ghost Value = { List ℕ };

    ghost view = { λ s. s.text };

    ghost invariant = { λ s. IsTrue (is_settled s.text) };
}

impl Settled {
    pub fn bytes(&self) -> &[u8]
        ensures value { result.now ≡ self.now }
        ensures settled { is_settled self.now ≡ true }
    {
        self.text.bytes()
    }

    pub fn copy(&self) -> Mem<Self>
        ensures { IfOk result (λ copy. copy ≡ self.now) }
    {
        let text = self.text.copy()?;
        Ok(Settled { text })
    }
}

impl Copied for Settled {
    fn copied(&self) -> Mem<Self> {
        self.copy()
    }
}

/// The bytes, where from left to right each pair of a backslash and an n is a newline.
pub fn settle(alloc: Global, bytes: &[u8]) -> Mem<Settled>
    ensures { IfOk result (λ text. text ≡ settled bytes.now) }
{
    let text = with_newlines(alloc, bytes)?;
    Ok(Settled { text })
}

fn with_newlines(alloc: Global, bytes: &[u8]) -> Mem<Text>
    ensures { IfOk result (λ text. text ≡ settled bytes.now) }
{
    let mut text = Text::with_capacity(alloc, bytes.len())?;
    let mut rest = bytes;
    while let Some((plain, after)) = split_at_byte(rest, b'\\') {
        text.append(plain)?;
        match behind_n(after) {
            Some(tail) => {
                text.push(b'\n')?;
                rest = tail;
            }
            None => {
                text.push(b'\\')?;
                rest = after;
            }
        }
    }
    text.append(rest)?;
    Ok(text)
}

// What follows an n that comes first: with a backslash before it that n stands for a newline.
fn behind_n(bytes: &[u8]) -> Option<&[u8]>
    ensures { MatchOption result (settled (backslash ∷ bytes.now) ≡ backslash ∷ settled bytes.now)
        (λ tail. (settled (backslash ∷ bytes.now) ≡ newline ∷ settled tail.now) × (length tail.now < length bytes.now)) }
{
    match bytes {
        [b'n', tail @ ..] => Some(tail),
        _ => None,
    }
}

/// The bytes, with each newline as the pair of a backslash and an n.
pub fn show_newlines(alloc: Global, bytes: &[u8]) -> Mem<Text>
    ensures { IfOk result (λ text. text ≡ newlines_shown bytes.now) }
{
    let mut text = Text::with_capacity(alloc, bytes.len())?;
    let mut rest = bytes;
    while let Some((line, after)) = split_at_byte(rest, b'\n') {
        text.append(line)?;
        text.append(b"\\n")?;
        rest = after;
    }
    text.append(rest)?;
    Ok(text)
}
