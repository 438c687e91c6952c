// A template of questions.
ghost use Rattle.std.specs.Prelude.{◌≡◌};

use crate::kinds::Kind;
use dc_text::{FieldKey, Name, Text};
use std::marker::Model;

/// A template, as a file brings it (debconf-devel(7)). Only `read_templates` makes one.
#[derive(Drop)]
pub struct Template {
    name: Name,
    kind: Kind,
    fields: Vec<(FieldKey, Text)>,
}

impl Model for Template {
    ghost use Rattle.dc_template.specs.Stanzas.{Stanza, IsTemplate};

    ghost Value = { Stanza };

    ghost view = { λ t. record { name = t.name; kind = t.kind; fields = t.fields.items } };

    ghost invariant = { λ t. IsTemplate (record { name = t.name; kind = t.kind; fields = t.fields.items }) };
}

impl Template {
    ghost use Rattle.dc_template.specs.Stanzas.{IsTemplate};

    pub(crate) fn new(name: Name, kind: Kind, fields: Vec<(FieldKey, Text)>) -> Self
        requires { IsTemplate (record { name = name; kind = kind; fields = fields.items }) }
        ensures { result ≡ record { name = name; kind = kind; fields = fields.items } }
    {
        Template { name, kind, fields }
    }

    /// The name, which is that of its question too where the file is loaded.
    pub fn name(&self) -> &Name
        ensures { result.now ≡ self.now.name }
    {
        &self.name
    }

    /// The kind that its `type` names.
    pub fn kind(&self) -> Kind
        ensures { result ≡ self.now.kind }
    {
        self.kind
    }

    /// The fields, `type` among them, in byte order of their keys. The values are as they stand in the file: they aren't
    /// settled.
    pub fn fields(&self) -> &[(FieldKey, Text)]
        ensures value { result.now ≡ self.now.fields }
        ensures template { IsTemplate self.now }
    {
        self.fields.as_slice()
    }
}
