//! Links and programs of the host, behind pipes and the standard streams, as adapters of the traits of the outside.
#![tactic(auto)]

pub mod child;
pub mod link;
pub mod output;
mod streams;

pub use child::HostChild;
pub use link::HostLink;
pub use output::HostOutput;

#[cfg(test)]
mod tests;
