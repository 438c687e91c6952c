//! Layers: databases that hold items themselves (debconf.conf(5)), however each is kept, and which items each accepts.
#![tactic(auto)]

pub mod folders;
pub mod image;
mod imaging;
pub mod laws;
pub mod layer;
pub mod layer_core;
pub mod pattern;
mod plain;
pub mod rules;
mod set_up;
pub mod sorted;
pub mod tired;

pub use dc_table::is_owned;
pub use image::Image;
pub use layer::{Layer, LayerError, Taken};
pub use layer_core::LayerCore;
pub use pattern::{Pattern, PatternError};
pub use rules::LayerRules;
pub use sorted::{FileLayer, FileSort, PipeLayer, PipeSort, Sort, SortedLayer};
pub use tired::TiredLayer;
