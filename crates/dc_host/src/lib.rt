//! The files of the host, as an adapter of the trait of the outside.
#![tactic(auto)]

mod counts;
pub mod files;
mod folders;
mod guard;
mod locks;
mod paths;
mod search;
pub mod system;

pub use files::HostFiles;
pub use system::HostSystem;

#[cfg(test)]
mod memory_tests;
#[cfg(test)]
mod tests;
