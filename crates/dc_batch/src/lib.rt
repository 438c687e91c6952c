//! Job texts: which packages a run configures, one after another.
//!
//! A job text has a stanza for each package, parted by blank lines; lines that begin with `#` are passed over. Each other line is
//! `Field: value`, parted at the first colon, both sides trimmed. Fields are read without regard to case: `Package` is there always;
//! `Templates` is the path of a template file, and `Config` a command, whose words whitespace parts. One of these two is there too.
#![tactic(auto)]

mod draft;
pub mod faults;
mod forms;
pub mod job;
pub mod laws;
pub mod printing;
pub mod reading;

pub use faults::{JobError, JobKind};
pub use job::Job;
pub use printing::print_jobs;
pub use reading::read_jobs;

#[cfg(test)]
mod tests;
