//! Templates of questions: the files that packages bring, the languages in which a field is looked for, and the
//! variables in its text.
#![tactic(auto)]

mod checking;
pub mod expansion;
pub mod faults;
mod forms;
pub mod kinds;
pub mod languages;
pub mod laws;
pub mod printing;
pub mod reading;
mod seen;
pub mod template;

pub use expansion::{Variables, expand};
pub use faults::{TemplateError, TemplateKind};
pub use forms::{is_description, is_extended};
pub use kinds::Kind;
pub use languages::keys_tried;
pub use printing::print_templates;
pub use reading::read_templates;
pub use template::Template;
