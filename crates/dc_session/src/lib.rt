//! A session: commands of a confmodule, line by line (debconf-devel(7)).
#![tactic(auto)]

pub mod asking;
pub mod asking_commands;
pub mod finishing;
pub mod going;
pub mod laws;
pub mod name_set;
pub mod policy;
pub mod progress_commands;
pub mod question_commands;
pub mod read_ahead;
pub mod replies;
pub mod serving;
pub mod session;
pub mod session_questions;
pub mod stepped;
pub mod template_files;
pub mod template_loading;
pub mod terminal;

pub use asking::{Asking, Bar};
pub use policy::AskPolicy;
pub use read_ahead::ReadAhead;
pub use replies::sent_in;
pub use serving::{SessionSetup, ask_policy, finish_served, serve_layers};
pub use session::Session;
pub use session_questions::SessionQuestions;
pub use stepped::{StepError, Stepped};
pub use template_files::{Found, find_templates};
pub use template_loading::FileEnd;
pub use terminal::NoTerminal;
