//! Tests that cross crates: calls that no tool makes yet, each once, on its happy path, and a run over a real folder.
#![tactic(auto)]

#[cfg(test)]
mod running_tests;
#[cfg(test)]
mod tests;
