//! Frontends: their words, which questions are shown (debconf-devel(7), PRIORITIES), and what is settled without asking.
#![tactic(auto)]

pub mod frontend;
pub mod noninteractive;
pub mod showing;
pub mod shown;

pub use frontend::Frontend;
pub use noninteractive::Noninteractive;
pub use showing::is_shown;
pub use shown::Shown;
