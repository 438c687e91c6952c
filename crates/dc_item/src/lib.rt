//! Items, which are the values of questions and templates, and the text of their records (debconf-devel(7)).
#![tactic(auto)]

pub mod effect;
pub mod entry;
pub mod item;
mod item_builder;
pub mod laws;
mod marks;
pub mod op;
mod owners;
mod printing;
mod reader;
mod reading;
pub mod records;
pub mod records_read;
mod same;
mod table_key;

pub use effect::Effect;
pub use entry::Entry;
pub use item::Item;
pub use item_builder::ItemBuilder;
pub use op::{After, Op};
pub use owners::{Owners, in_order};
pub use printing::{print_record, print_records};
pub use records::{RecordError, read_records};
pub use records_read::Records;
pub use table_key::TableKey;
