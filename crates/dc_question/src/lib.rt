//! Questions: what each says and what is written to it, over the layers of a store (debconf-devel(7)).
#![tactic(auto)]

mod answers;
mod batches;
mod beside;
mod binding;
mod changes;
pub mod choices;
pub mod context;
pub mod errors;
pub mod fields;
mod grouping;
mod kinds_left;
pub mod laws;
mod leaving;
mod loading;
mod ownership;
mod preseeding;
pub mod questions;
pub mod values;

pub use choices::{ChoicePair, choice_pair};
pub use context::QuestionContext;
pub use errors::QuestionError;
pub use fields::{field, localised};
pub use preseeding::seen_flag;
pub use questions::Questions;
pub use values::{kind, value};
