//! The words of the program: the tools, and what their words say.
#![tactic(auto)]

mod copy_words;
mod copying;
mod database_words;
mod drill_words;
pub mod laws;
pub mod reading;
pub mod run_options;
mod run_words;
mod seen;
pub mod selection_words;
mod show_words;
pub mod tool;

pub use reading::read_tool;
pub use tool::{ConfigLine, CopyWords, PlacedWord, Shown, Tool, ToolError, is_name_field};

#[cfg(test)]
mod tests;
