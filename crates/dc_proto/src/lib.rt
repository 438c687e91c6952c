//! The confmodule protocol, version 2 (debconf-devel(7)): command lines and replies.
#![tactic(auto)]

pub mod arguments;
pub mod command;
pub mod numbers;
pub mod priority;
pub mod progress_arguments;
pub mod reply;
pub mod session_arguments;

pub use command::{Command, Heard, read_command};
pub use priority::Priority;
pub use reply::{Reply, print_reply};
