//! The store: reads and writes through plans: over stacks of layers, with backups and with lines that tell what is done (debconf.conf(5)).
#![tactic(auto)]

mod acceptance;
mod batch;
pub mod batches;
mod boxes;
mod landings;
pub mod laws;
mod layers;
mod leaves;
mod listing;
mod search;
pub mod store;
mod telling;
#[cfg(test)]
mod tests;
mod writing;

pub use batch::{Batch, ReportedFor, Write};
pub use store::{Store, StoreError};
