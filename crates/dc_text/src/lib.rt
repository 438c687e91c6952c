//! Texts, lists and maps of texts, names and keys: what every format of debconf is made of.
#![tactic(auto)]

pub mod bytes;
pub mod keys;
pub mod laws;
pub mod lists;
pub mod maps;
pub mod memory;
pub mod names;
pub mod settling;
mod short;
pub mod texts;

pub use keys::{FieldKey, FlagName, VarKey};
pub use lists::{Copied, List};
pub use maps::TextMap;
pub use memory::{Mem, OutOfMemory};
pub use names::{Name, NameRefused};
pub use settling::{Settled, settle, show_newlines};
pub use texts::Text;
