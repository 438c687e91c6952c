// Databases, as far as they name others.
ghost use Rattle.std.specs.Prelude.{◌≡◌, IfOk};
ghost use Rattle.dc_conf.specs.ConfFaults.{form_by as form_by_of, node_of as node_of_stanza, nodes_of as nodes_of_stanzas};

use crate::drivers::Driver;
use crate::fields::{Field, line_at, value_at};
use crate::places::driver_in;
use crate::values::names_in;
use dc_text::{List, Mem, Text};
use std::alloc::Global;

/// How a database is made.
#[derive(Drop)]
pub enum Form {
    /// It holds items itself.
    Holds,
    /// Others hold it, which are asked one after another, from the top.
    Stacks(List<Text>),
    /// The first holds it, and what is written to that is written to the second too.
    Backs(Text, Text),
    /// Another holds it, and what is done there is told.
    Tells(Text),
}

/// A database: its name, how it is made, and the line that names its driver, counted from 1.
#[derive(Drop)]
pub struct Node {
    pub name: Text,
    pub form: Form,
    pub line: u64,
}

/// The databases of stanzas.
pub fn nodes_of(alloc: Global, databases: &[List<Field>]) -> Mem<List<Node>>
    ensures { IfOk result (λ nodes. nodes ≡ nodes_of_stanzas databases.now) }
{
    let mut nodes = List::new(alloc);
    let mut rest = databases;
    while let [stanza, tail @ ..] = rest {
        nodes.push(node_of(alloc, stanza.as_slice())?)?;
        rest = tail;
    }
    Ok(nodes)
}

fn node_of(alloc: Global, stanza: &[Field]) -> Mem<Node>
    ensures { IfOk result (λ node. node ≡ node_of_stanza stanza.now) }
{
    let name = Text::from_bytes(alloc, value_at(stanza, b"name"))?;
    let form = form_by(alloc, driver_in(stanza), stanza)?;
    let line = line_at(stanza, b"driver");
    Ok(Node { name, form, line })
}

fn form_by(alloc: Global, driver: Option<Driver>, stanza: &[Field]) -> Mem<Form>
    ensures { IfOk result (λ form. form ≡ form_by_of driver stanza.now) }
{
    match driver {
        Some(Driver::Stack) => Ok(Form::Stacks(names_in(alloc, value_at(stanza, b"stack"))?)),
        Some(Driver::Backup) => {
            let db = Text::from_bytes(alloc, value_at(stanza, b"db"))?;
            let backupdb = Text::from_bytes(alloc, value_at(stanza, b"backupdb"))?;
            Ok(Form::Backs(db, backupdb))
        }
        Some(Driver::Debug) => Ok(Form::Tells(Text::from_bytes(alloc, value_at(stanza, b"db"))?)),
        Some(Driver::File | Driver::DirTree | Driver::PackageDir | Driver::Pipe) | None => {
            Ok(Form::Holds)
        }
    }
}
