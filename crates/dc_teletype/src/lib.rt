//! The dialogue of a terminal that shows lines: how questions are put, in columns of text, and what a line answers (debconf(7), Frontends).
#![tactic(auto)]

pub mod answering;
pub mod columns;
pub mod keys;
pub mod laws;
pub mod prompting;
pub mod teletype;
pub mod terminal;
pub mod wrapping;

pub use answering::{Reading, read_answer};
pub use prompting::{heading, introduction, prompt};
pub use teletype::{Answer, Asked, MAX_UNUSABLE, Teletype};
pub use terminal::{TerminalLine, TerminalLines};
pub use wrapping::wrap;

#[cfg(test)]
mod tests;
