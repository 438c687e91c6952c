//! The wire of the Passthrough frontend (debconf(7), Frontends): how a session and the program that holds its dialogue say
//! questions and answers in lines.
#![tactic(auto)]

mod begun;
pub mod calls;
pub mod laws;
pub mod lines;
pub mod pass;
pub mod printing;
mod question_part;
pub mod reader;
mod replies;
mod sending;

pub use calls::{WireCall, WireError};
pub use pass::{Pass, PassError, ask_on_wire, tell_on_wire};
pub use printing::{print_answers, print_request};
pub use reader::RequestReader;

#[cfg(test)]
mod tests;
