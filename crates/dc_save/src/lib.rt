//! How layers are saved to files, and loaded from them.
#![tactic(auto)]

mod folder_loading;
pub mod laws;
pub mod loading;
pub mod pipe_loading;
pub mod saving;

pub use loading::{LoadError, Loaded, load};
pub use pipe_loading::{PipeError, PipeLoaded, load_pipe};
pub use saving::{SaveError, save_images};
