// Texts that were seen.
ghost use Rattle.std.specs.Prelude.{◌≡◌, ◌∷◌, ◌++◌, [], not, IfOk, if◌then◌else◌, map as each};
ghost use Rattle.std.specs.List.{list_any};
ghost use Rattle.std.specs.Str.{bytes_eq};
ghost use Rattle.dc_text.specs.Bytes.{is_nil};

use dc_text::Mem;
use indexmap::IndexSet;
use std::alloc::Global;
use std::marker::Model;

/// Many texts, in the order in which they were seen.
#[derive(Drop)]
pub struct ManySeen<'a> {
    texts: IndexSet<&'a [u8]>,
}

impl<'a> Model for ManySeen<'a> {
    ghost use Rattle.std.specs.Prelude.{List, ℕ, map as each};

    ghost Value = { List (List ℕ) };

    ghost view = { λ s. each (λ t. t.now) s.texts.keys };
}

impl<'a> ManySeen<'a> {
    /// No text.
    pub fn new(alloc: Global) -> Self
        ensures { result ≡ [] }
    {
        ManySeen {
            texts: IndexSet::new(alloc),
        }
    }

    /// Puts the text at the end, unless it was seen before. It answers whether it wasn't.
    pub fn add(&mut self, text: &'a [u8]) -> Mem<bool>
        ensures new { IfOk result (λ is_new. is_new ≡ not (list_any (bytes_eq text.now) self.old)) }
        ensures added { IfOk result (λ is_new. self.new ≡ (if is_new then self.old ++ text.now ∷ [] else self.old)) }
    {
        Ok(self.texts.insert(text)?)
    }

    /// Whether no text was seen.
    pub fn is_empty(&self) -> bool
        ensures { result ≡ is_nil self.now }
    {
        self.texts.is_empty()
    }

    /// Forgets all texts.
    pub fn clear(&mut self)
        ensures { self.new ≡ [] }
    {
        self.texts.clear();
    }
}

/// How many texts are looked through one by one.
const FEW: usize = 16;

/// Texts in the order in which they were seen. Few of them take one piece of memory, which is kept when they are forgotten.
#[derive(Drop)]
pub struct FewSeen<'a> {
    few: Vec<&'a [u8]>,
    others: ManySeen<'a>,
}

impl<'a> Model for FewSeen<'a> {
    ghost use Rattle.std.specs.Prelude.{List, ℕ, ◌++◌, map as each};

    ghost Value = { List (List ℕ) };

    ghost view = { λ s. each (λ t. t.now) s.few.items ++ s.others };
}

impl<'a> FewSeen<'a> {
    /// No text.
    pub fn new(alloc: Global) -> Self
        ensures { result ≡ [] }
    {
        FewSeen {
            few: Vec::new(alloc),
            others: ManySeen::new(alloc),
        }
    }

    /// Puts the text at the end, unless it was seen before. It answers whether it wasn't.
    pub fn add(&mut self, text: &'a [u8]) -> Mem<bool>
        ensures new { IfOk result (λ is_new. is_new ≡ not (list_any (bytes_eq text.now) self.old)) }
        ensures added { IfOk result (λ is_new. self.new ≡ (if is_new then self.old ++ text.now ∷ [] else self.old)) }
    {
        if is_among(self.few.as_slice(), text) {
            return Ok(false);
        }
        if self.few.len() < FEW && self.others.is_empty() {
            self.few.push(text)?;
            return Ok(true);
        }
        self.others.add(text)
    }

    /// Forgets all texts.
    pub fn clear(&mut self)
        ensures { self.new ≡ [] }
    {
        self.few.clear();
        if !self.others.is_empty() {
            self.others.clear();
        }
    }
}

fn is_among(texts: &[&[u8]], text: &[u8]) -> bool
    ensures { result ≡ list_any (λ other. bytes_eq text.now other.now) texts.now }
{
    texts.iter().any(|other| text == *other)
}
