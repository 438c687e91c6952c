//! The text of `get-selections` (debconf-get-selections(1)): the lines by which questions are answered on another machine.
#![tactic(auto)]

pub mod answers;
pub mod laws;
mod lines;
pub mod saying;
#[cfg(test)]
mod tests;

pub use answers::Answer;
pub use saying::{Said, selections};
