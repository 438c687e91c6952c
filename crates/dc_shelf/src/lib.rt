//! The boxes of the layers that a run uses: they are taken blank, set up, loaded, and asked for what is to be saved.
#![tactic(auto)]

pub mod loading;
pub mod saving;
pub mod shelf;

pub use loading::{SourceError, load_all};
pub use saving::{Asked, asked_of_all, mark_all_saved};
pub use shelf::{NotSetUp, Shelf, set_up_all};
