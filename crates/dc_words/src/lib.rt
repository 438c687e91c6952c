//! The lines of a stream, and the words and choices of a line.
#![tactic(auto)]

pub mod choices;
pub mod escaping;
pub mod laws;
pub mod stream;
pub mod wording;

pub use choices::{join_choices, split_choices};
pub use escaping::{escape, unescape_words};
pub use stream::{Line, Lines, MAX_LINE, MAX_PIECE};
pub use wording::plain_words;
