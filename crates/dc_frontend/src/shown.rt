// Questions as they are shown.
use dc_template::Kind;
use dc_text::{List, Name, Text};

/// A question as it is shown, in the user's language and with its variables put in (debconf-devel(7)).
#[derive(Drop)]
pub struct Shown {
    pub name: Name,
    /// What the question asks for.
    pub kind: Kind,
    /// The question in a line.
    pub description: Text,
    /// What more is said of it, which may be empty.
    pub extended: Text,
    /// What values are made of: the choices, in no language. Only a select and a multiselect have any.
    pub choices: List<Text>,
    /// The choices as the user reads them, one for each.
    pub labels: List<Text>,
    /// The value that it has.
    pub value: Text,
}
