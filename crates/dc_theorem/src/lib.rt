//! Laws of whole runs, over the definitions alone: what comes in from the outside determines what a run says and leaves, and how a run ends; and what
//! one run prints and another sets.
#![tactic(auto)]

pub mod completeness;
pub mod laws;
pub mod moving;
