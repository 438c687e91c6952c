//! The serving of a link: its lines are given to a machine, each is answered before more is read.
#![tactic(auto)]

pub mod laws;
pub mod machine;
pub mod outcome;
pub mod serving;

pub use machine::{LineMachine, Response};
pub use outcome::{Conversation, LinkEnd};
pub use serving::serve_link;

#[cfg(test)]
mod tests;
