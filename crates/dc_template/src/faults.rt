// The faults of template files.
use dc_text::OutOfMemory;
use thiserror::Error;

/// What is wrong with a line of a template file. At one line the first of these decides.
#[derive(Clone, Copy, Debug, PartialEq, Eq)]
pub enum TemplateKind {
    /// The line isn't indented and has no colon.
    NoColon,
    /// What stands before the colon is no key, or one of an extended description, or leaves no room for one.
    BadKey,
    /// The first line of a stanza isn't a Template line.
    NoTemplate,
    /// The value of the Template line is no name.
    BadName,
    /// The stanza of the Template line has no `type`.
    NoType,
    /// The value of `type` names no kind.
    BadType,
    /// The stanza has the key already, or an earlier stanza has the name.
    Twice,
    /// The line is indented under another field than a description.
    StrayIndent,
}

/// Why a text has no templates.
#[derive(Clone, Copy, Debug, PartialEq, Eq, Error)]
pub enum TemplateError {
    /// The first line with a fault, counted from 1.
    #[error("a bad template")]
    Bad { line: u64, kind: TemplateKind },
    #[error("out of memory")]
    OutOfMemory,
}

impl From<OutOfMemory> for TemplateError {
    ghost use Rattle.std.specs.Prelude.{◌≡◌};
    ghost use Rattle.dc_template.specs.declared.faults.TemplateError.TheVariants.{OutOfMemory};

    ghost from_gives = { λ _ e. e ≡ OutOfMemory };

    fn from(_: OutOfMemory) -> Self {
        TemplateError::OutOfMemory
    }
}
