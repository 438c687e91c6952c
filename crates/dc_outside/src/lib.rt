//! The outside, as the program sees it: links that bytes come and go on, programs behind them, and files.
#![tactic(auto)]

pub mod child;
pub mod crashing;
mod disk_state;
pub mod files;
pub mod laws;
pub mod link;
pub mod memory_child;
pub mod memory_files;
pub mod memory_link;

pub use child::{Child, WaitFault};
pub use crashing::Pick;
pub use files::{Files, FilesCall, FilesError, FilesOp};
pub use link::{Link, LinkError, Piece, tell};
pub use memory_child::MemChild;
pub use memory_files::MemFiles;
pub use memory_link::MemLink;
