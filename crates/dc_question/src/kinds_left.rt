// Kinds that writes to templates leave to them.
ghost use Rattle.std.specs.Prelude.{◌≡◌};
ghost use Rattle.std.specs.FinMap as map;

use dc_template::Kind;
use dc_text::{Name, TextMap};
use std::alloc::Global;
use std::marker::Model;

/// The kinds of templates once writes to them are done: where a template is named, its kind stands before those of the map.
#[derive(Drop)]
pub struct KindsLeft<'k> {
    name: Option<&'k Name>,
    kind: Option<Kind>,
    others: TextMap<Option<Kind>>,
}

impl<'k> Model for KindsLeft<'k> {
    ghost use Rattle.std.specs.Prelude.{Option};
    ghost use Rattle.std.specs.Coded.{codes};
    ghost use Rattle.std.specs.FinMap as map;
    ghost use Rattle.std.specs.Option.{option_map_or};
    ghost use Rattle.dc_text.specs.Maps.{Texts};
    ghost use Rattle.dc_template.specs.declared.kinds.Kind.{Kind as KindOf};

    ghost Value = { Texts (Option KindOf) };

    ghost coded = { Prim.hlevel (codes, map.code) };

    ghost view = { λ k. option_map_or (λ name. map.insert k.others name.now k.kind) k.name k.others };
}

impl<'k> KindsLeft<'k> {
    // No kinds.
    pub(crate) fn none(alloc: Global) -> Self
        ensures { result ≡ map.empty }
    {
        KindsLeft::in_map(TextMap::new(alloc))
    }

    // The kind of one template.
    pub(crate) fn one(alloc: Global, name: &'k Name, kind: Option<Kind>) -> Self
        ensures { result ≡ map.insert map.empty name.now kind }
    {
        KindsLeft {
            name: Some(name),
            kind,
            others: TextMap::new(alloc),
        }
    }

    // The kinds in a map.
    pub(crate) fn in_map(others: TextMap<Option<Kind>>) -> Self
        ensures { result ≡ others }
    {
        KindsLeft {
            name: None,
            kind: None,
            others,
        }
    }

    // The kind that is left to the template, if one is known.
    pub(crate) fn get(&self, template: &[u8]) -> Option<Option<Kind>>
        ensures { result ≡ map.get self.now template.now }
    {
        match self.name {
            None => self.others.get(template).copied(),
            Some(name) => known(name, self.kind, &self.others, template),
        }
    }
}

// The kind of a template, where that of the named one stands before the others.
fn known(
    name: &Name,
    kind: Option<Kind>,
    others: &TextMap<Option<Kind>>,
    template: &[u8],
) -> Option<Option<Kind>>
    ensures { result ≡ map.get (map.insert others.now name.now kind) template.now }
{
    if name.bytes() == template {
        return Some(kind);
    }
    others.get(template).copied()
}
