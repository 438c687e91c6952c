//! The drill of a session: commands that are made up by a number, and what they come to.
#![tactic(auto)]

pub mod commands;
pub mod drilling;
pub mod replies;
pub mod report;
#[cfg(test)]
mod tests;

pub use drilling::drill;
