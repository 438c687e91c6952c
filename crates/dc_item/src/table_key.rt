// The keys of maps and sets that have many entries.
ghost use Rattle.std.specs.Prelude.{◌≡◌, true};
ghost use Rattle.std.proofs.Common.{ap};
ghost use Rattle.std.specs.Cmp.{partial_equiv_from_equiv};
ghost use Rattle.std.specs.Cmp.Lexicographic.{bytes_decides, nat_list_eq_equiv};
ghost use Rattle.std.specs.Hash as fed;
ghost use Rattle.std.specs.Str.{bytes_eq};
ghost use Rattle.dc_text.specs.Names.{is_name};

use dc_text::{Name, Text};
use indexmap::Equivalent;
use std::cmp::Ordering;
use std::hash::{Hash, Hasher};
use std::marker::Model;

/// A text as a key, which is looked up by its bytes. As a text does, it keeps few bytes in place.
#[derive(Drop)]
pub struct TableKey {
    text: Text,
}

impl Model for TableKey {
    ghost use Rattle.std.specs.Prelude.{List, ℕ};

    ghost Value = { List ℕ };

    ghost view = { λ k. k.text };
}

impl TableKey {
    /// The text as a key. Its bytes aren't copied.
    pub fn new(text: Text) -> Self
        ensures { result ≡ text }
    {
        TableKey { text }
    }

    /// The name as a key. Its bytes aren't copied.
    pub fn of(name: Name) -> Self
        ensures value { result ≡ name }
        ensures name { is_name name ≡ true }
    {
        TableKey::new(name.into_text())
    }

    /// The bytes of the key, as they are compared.
    pub fn bytes(&self) -> &[u8]
        ensures { result.now ≡ self.now }
    {
        self.text.bytes()
    }
}

// Whether the bytes are the same, told by their order, which costs less than the equality of the kit does for a name.
fn are_equal(one: &[u8], other: &[u8]) -> bool
    ensures { result ≡ bytes_eq one.now other.now }
{
    one.len() == other.len() && matches!(one.cmp(other), Ordering::Equal)
}

impl PartialEq for TableKey {
    ghost eq = { bytes_eq };

    ghost laws = { partial_equiv_from_equiv nat_list_eq_equiv };

    fn eq(&self, other: &TableKey) -> bool {
        are_equal(self.bytes(), other.bytes())
    }
}

impl Eq for TableKey {
    ghost laws = { nat_list_eq_equiv };
}

impl Hash for TableKey {
    ghost hash_input = { λ k. fed.slice fed.u8 k };

    ghost respects_eq = { λ x y h. ap (fed.slice fed.u8) ((bytes_decides x y).0 h) };

    fn hash<H: Hasher>(&self, state: &mut H) {
        self.bytes().hash(state);
    }
}

impl Equivalent<TableKey> for &[u8] {
    ghost equivalent = { λ q k. bytes_eq q.now k };

    ghost respects_hash = { λ q k h. ap (fed.slice fed.u8) ((bytes_decides q.now k).0 h) };

    ghost respects_eq = { λ q x y. nat_list_eq_equiv.congr q.now x y };

    fn equivalent(&self, key: &TableKey) -> bool {
        are_equal(*self, key.bytes())
    }
}
