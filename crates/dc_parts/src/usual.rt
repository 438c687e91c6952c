// The keys of the fields that most items have.
ghost use Rattle.std.specs.Prelude.{◌≡◌};
ghost use Rattle.dc_parts.specs.Usual.{usual_name};

/// The key of a field that most items have (debconf-devel(7)). It is packed as its number.
#[derive(Clone, Copy)]
pub enum UsualKey {
    Default,
    Description,
    ExtendedDescription,
    Template,
    Type,
    Value,
}

impl UsualKey {
    /// The key, in lower case, without the mark of fields.
    pub fn bytes(self) -> &'static [u8]
        ensures { result.now ≡ usual_name self }
    {
        match self {
            UsualKey::Default => b"default",
            UsualKey::Description => b"description",
            UsualKey::ExtendedDescription => b"extended_description",
            UsualKey::Template => b"template",
            UsualKey::Type => b"type",
            UsualKey::Value => b"value",
        }
    }
}
