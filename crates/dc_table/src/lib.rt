//! Tables of items, and which of their items changed (debconf.conf(5)).
#![tactic(auto)]

pub mod item_table;
mod listing;
mod touched;

pub use item_table::{ItemTable, is_owned};
