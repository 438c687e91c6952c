//! The other end of the wire (debconf(7), Frontends): a program that asks on a terminal what a session asks for.
#![tactic(auto)]

pub mod answerer;
pub mod laws;
pub mod serving;

pub use answerer::AnswerBreak;
pub use serving::serve_requests;

#[cfg(test)]
mod tests;
