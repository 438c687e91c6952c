//! Selections (debconf-set-selections(1)): the lines that answer questions before they are asked.
#![tactic(auto)]

pub mod faults;
pub mod joining;
pub mod laws;
pub mod lines;
pub mod selected;
pub mod selecting;
pub mod selections;
pub mod taking;

pub use faults::{SelectionError, SelectionFault};
pub use joining::{Joined, Joiner};
pub use lines::{LineDone, LineFault, set_line};
pub use selected::{Choices, SelectedQuestions};
pub use selecting::Selector;
pub use selections::{Selection, read_selection};
pub use taking::{Selected, take_selections};

#[cfg(test)]
mod tests;
