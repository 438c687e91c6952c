// How questions are asked.
use dc_frontend::Frontend;
use dc_proto::Priority;

/// How a session asks questions (debconf(7)).
#[derive(Clone, Copy, Debug, PartialEq, Eq)]
pub struct AskPolicy {
    /// What asks the user.
    pub frontend: Frontend,
    /// The least priority of a question that is shown.
    pub threshold: Priority,
    /// Whether questions that are skipped, as no user is there, become seen.
    pub nonint_seen: bool,
}
