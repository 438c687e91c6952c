//! Layers in folders (debconf.conf(5)): the two sorts, with a file for each item or for each prefix of names.
#![tactic(auto)]

pub mod pack;
pub mod tree;

pub use pack::{PackSort, PackageDirLayer};
pub use tree::{DirTreeLayer, TreeSort};
