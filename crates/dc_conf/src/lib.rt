//! Configurations (debconf.conf(5)): which databases there are, and what each is kept in.
#![tactic(auto)]

mod checking;
pub mod conf;
pub mod drivers;
pub mod faults;
mod fields;
pub mod laws;
mod least;
mod naming;
mod nodes;
mod places;
pub mod plans;
mod reading;
mod resolving;
mod rules;
pub mod spec;
#[cfg(test)]
mod tests;
mod values;
mod webs;

pub use conf::{Conf, read_conf};
pub use faults::{ConfError, ConfKind};
pub use plans::{Plan, PlanList, ResolveError, Resolved};
pub use spec::{LayerSort, LayerSpec};
