//! What the tools `show` and `copydb` make of layers (debconf-show(1), debconf-copydb(1)).
#![tactic(auto)]

pub mod copying;
pub mod laws;
pub mod listing;
pub mod report;
pub mod showing;
#[cfg(test)]
mod tests;

pub use copying::copy_items;
pub use listing::{databases_text, owners_text};
pub use report::CopyReport;
pub use showing::show_text;
