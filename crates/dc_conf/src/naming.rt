// Which databases the fields of a configuration name, and which faults that is.
ghost use Rattle.std.specs.Prelude.{◌≡◌, IfOk, not};
ghost use Rattle.std.specs.List.{flat_map, list_any};
ghost use Rattle.dc_conf.specs.ConfFaults.{unknown_database as unknown_database_of, naming_faults, one_faults, stack_faults, backup_faults, made_faults, all_named_faults, shared_database as shared_database_of, driver_in as driver_in_of};
ghost use Rattle.dc_conf.specs.Machine.{least_of};
ghost use Rattle.dc_conf.specs.Nodes.{is_node};

use crate::drivers::Driver;
use crate::faults::{ConfKind, Fault};
use crate::fields::{Field, field_at, value_at};
use crate::least::{earlier, fault_if};
use crate::places::driver_in;
use crate::values::names_in;
use crate::webs::Web;
use dc_text::{List, Mem, Text};
use std::alloc::Global;

/// The first fault of the third pass: the first stanza, and databases, name databases.
pub fn names_fault(
    alloc: Global,
    web: &Web,
    head: &[Field],
    databases: &[List<Field>],
) -> Mem<Option<Fault>>
    ensures { IfOk result (λ fault. fault ≡ least_of (all_named_faults web.now head.now databases.now)) }
{
    let fault = earlier(
        unknown_database(head, b"config", web),
        unknown_database(head, b"templates", web),
    );
    Ok(earlier(fault, databases_fault(alloc, web, databases)?))
}

fn unknown_database(head: &[Field], key: &[u8], web: &Web) -> Option<Fault>
    ensures { result ≡ least_of (unknown_database_of key.now head.now web.now) }
{
    match field_at(head, key) {
        Some(field) => fault_if(
            !web.has(field.value.bytes()),
            field.line,
            ConfKind::UnknownDatabase,
        ),
        None => None,
    }
}

// The least fault of what the databases name.
fn databases_fault(alloc: Global, web: &Web, databases: &[List<Field>]) -> Mem<Option<Fault>>
    ensures { IfOk result (λ fault. fault ≡ least_of (flat_map (λ stanza. made_faults web.now (driver_in_of stanza) stanza) databases.now)) }
{
    let mut least = None;
    let mut rest = databases;
    while let [stanza, tail @ ..] = rest {
        least = earlier(least, made_fault(alloc, web, stanza.as_slice())?);
        rest = tail;
    }
    Ok(least)
}

// The fault of what a database names.
fn made_fault(alloc: Global, web: &Web, stanza: &[Field]) -> Mem<Option<Fault>>
    ensures { IfOk result (λ fault. fault ≡ least_of (made_faults web.now (driver_in_of stanza.now) stanza.now)) }
{
    match driver_in(stanza) {
        Some(Driver::Stack) => stack_fault(alloc, web, stanza),
        Some(Driver::Backup) => backup_fault(alloc, web, stanza),
        Some(Driver::Debug) => one_fault(alloc, web, b"db", stanza),
        Some(Driver::File | Driver::DirTree | Driver::PackageDir | Driver::Pipe) | None => Ok(None),
    }
}

fn stack_fault(alloc: Global, web: &Web, stanza: &[Field]) -> Mem<Option<Fault>>
    ensures { IfOk result (λ fault. fault ≡ least_of (stack_faults web.now stanza.now)) }
{
    let Some(field) = field_at(stanza, b"stack") else {
        return Ok(None);
    };
    let names = names_in(alloc, field.value.bytes())?;
    let named = naming_fault(web, value_at(stanza, b"name"), names.as_slice(), field.line);
    let meet = web.two_meet(alloc, names.as_slice())?;
    Ok(earlier(named, fault_if(meet, field.line, ConfKind::SharedDatabase)))
}

fn backup_fault(alloc: Global, web: &Web, stanza: &[Field]) -> Mem<Option<Fault>>
    ensures { IfOk result (λ fault. fault ≡ least_of (backup_faults web.now stanza.now)) }
{
    let first = one_fault(alloc, web, b"db", stanza)?;
    let second = one_fault(alloc, web, b"backupdb", stanza)?;
    let both = earlier(first, second);
    let Some(field) = field_at(stanza, b"backupdb") else {
        return Ok(both);
    };
    let meet = web.meet(value_at(stanza, b"db"), field.value.bytes());
    Ok(earlier(both, fault_if(meet, field.line, ConfKind::SharedDatabase)))
}

// The fault of a field that names one database.
fn one_fault(alloc: Global, web: &Web, key: &[u8], stanza: &[Field]) -> Mem<Option<Fault>>
    ensures { IfOk result (λ fault. fault ≡ least_of (one_faults web.now key.now stanza.now)) }
{
    let Some(field) = field_at(stanza, key) else {
        return Ok(None);
    };
    let mut names = List::new(alloc);
    names.push(field.value.copy()?)?;
    Ok(naming_fault(web, value_at(stanza, b"name"), names.as_slice(), field.line))
}

// The fault of a line in the stanza of the database of this name that gives others.
fn naming_fault(web: &Web, name: &[u8], others: &[Text], line: u64) -> Option<Fault>
    ensures { result ≡ least_of (naming_faults web.now name.now others.now line) }
{
    earlier(
        fault_if(names_unknown(web, others), line, ConfKind::UnknownDatabase),
        fault_if(web.some_lead_to(others, name), line, ConfKind::Cycle),
    )
}

// Whether one of the names is that of no database.
fn names_unknown(web: &Web, names: &[Text]) -> bool
    ensures { result ≡ list_any (λ name. not (is_node web.now name)) names.now }
{
    names.iter().any(|name| !web.has(name.bytes()))
}

/// The first fault of the fourth pass: the databases of questions and of templates meet.
pub fn shared_database(web: &Web, head: &[Field]) -> Option<Fault>
    ensures { result ≡ least_of (shared_database_of web.now head.now) }
{
    match field_at(head, b"templates") {
        Some(field) => fault_if(
            web.meet(value_at(head, b"config"), field.value.bytes()),
            field.line,
            ConfKind::SharedDatabase,
        ),
        None => None,
    }
}
