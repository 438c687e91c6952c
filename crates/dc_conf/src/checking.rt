// Which fault of stanzas decides.
ghost use Rattle.std.specs.Prelude.{◌≡◌, ◌∷◌, [], IfOk, false, length};
ghost use Rattle.std.specs.List.{filter, flat_map, list_any};
ghost use Rattle.dc_conf.specs.ConfFaults.{missing as missing_of, unknown_driver as unknown_driver_of, has_name as has_name_of, is_named as is_named_of, repeated_name as repeated_name_of, same_place as same_place_of, share_place, database_faults, along, head_faults, second_pass as second_pass_of, lone_faults, fault_if as fault_if_of, is_bad as is_bad_by, is_too_many as is_too_many_of, most_alike as most_alike_of, keep_alike as keep_alike_of, driver_in as driver_in_of, nodes_of, third_pass, fourth_pass};
ghost use Rattle.dc_conf.specs.Values.{rules_of};
ghost use Rattle.dc_conf.specs.Nodes.{names_of, repeats};
ghost use Rattle.dc_conf.specs.declared.faults.ConfKind.TheVariants.{BadValue};
ghost use Rattle.dc_conf.specs.Machine.{least_of, decided, later_passes, Rise};

use crate::drivers::Driver;
use crate::faults::{ConfKind, Fault};
use crate::fields::{Field, field_at, first_line, is_there};
use crate::least::{earlier, fault_if};
use crate::naming::{names_fault, shared_database};
use crate::places::{driver_in, paths_in, place_in, some_meet};
use crate::rules::{is_bad, lacks_field};
use crate::webs::Web;
use dc_text::{List, Mem, Text};
use std::alloc::Global;

/// The fault of stanzas that decides, if they have one. They come in the order of their lines.
pub fn find_fault(alloc: Global, stanzas: &[List<Field>]) -> Mem<Option<Fault>>
    requires { Rise 1 stanzas.now }
    ensures { IfOk result (λ fault. fault ≡ decided (later_passes stanzas.now)) }
{
    if let Some(fault) = second_pass(alloc, stanzas)? {
        return Ok(Some(fault));
    }
    match stanzas {
        [] => Ok(None),
        [head, databases @ ..] => later_fault(alloc, head.as_slice(), databases),
    }
}

// The fault of what stanzas name, where they have no other.
fn later_fault(alloc: Global, head: &[Field], databases: &[List<Field>]) -> Mem<Option<Fault>>
    requires { repeats (names_of (nodes_of databases.now)) ≡ false }
    ensures { IfOk result (λ fault. fault ≡ decided (third_pass (head.now ∷ databases.now) ∷ fourth_pass (head.now ∷ databases.now) ∷ [])) }
{
    let web = Web::of(alloc, databases)?;
    match names_fault(alloc, &web, head, databases)? {
        Some(fault) => Ok(Some(fault)),
        None => Ok(shared_database(&web, head)),
    }
}

// The first fault of the second pass: what each stanza lacks, and what is wrong with its values.
fn second_pass(alloc: Global, stanzas: &[List<Field>]) -> Mem<Option<Fault>>
    requires { Rise 1 stanzas.now }
    ensures { IfOk result (λ fault. fault ≡ least_of (second_pass_of stanzas.now)) }
{
    let [head, databases @ ..] = stanzas else {
        return Ok(head_fault(&[]));
    };
    match head_fault(head.as_slice()) {
        Some(fault) => Ok(Some(fault)),
        None => databases_fault(alloc, databases),
    }
}

fn head_fault(head: &[Field]) -> Option<Fault>
    ensures { result ≡ least_of (head_faults head.now) }
{
    earlier(
        missing(head, b"config", ConfKind::NoConfig),
        missing(head, b"templates", ConfKind::NoTemplates),
    )
}

// A fault on the first line of the stanza where it has no such field.
fn missing(stanza: &[Field], key: &[u8], kind: ConfKind) -> Option<Fault>
    ensures { result ≡ least_of (missing_of key.now stanza.now kind) }
{
    fault_if(!is_there(stanza, key), first_line(stanza), kind)
}

// The fault of the first database with one.
fn databases_fault(alloc: Global, databases: &[List<Field>]) -> Mem<Option<Fault>>
    requires { Rise 1 databases.now }
    ensures { IfOk result (λ fault. fault ≡ least_of (along database_faults [] databases.now)) }
{
    let mut place = 0;
    let mut rest = databases;
    while let [stanza, tail @ ..] = rest {
        if let Some(fault) = database_fault(alloc, &databases[..place], stanza.as_slice())? {
            return Ok(Some(fault));
        }
        place += 1;
        rest = tail;
    }
    Ok(None)
}

// The fault of a database that stands behind others.
fn database_fault(alloc: Global, before: &[List<Field>], stanza: &[Field]) -> Mem<Option<Fault>>
    ensures { IfOk result (λ fault. fault ≡ least_of (database_faults before.now stanza.now)) }
{
    let lone = lone_fault(is_too_many(before, stanza), stanza);
    let named = earlier(lone, repeated_name(before, stanza));
    Ok(earlier(named, same_place(alloc, before, stanza)?))
}

// Whether 256 databases stand before this one, or as many as there may be of those that keep items as it does.
fn is_too_many(before: &[List<Field>], stanza: &[Field]) -> bool
    ensures { result ≡ is_too_many_of before.now stanza.now }
{
    let driver = driver_in(stanza);
    256 <= before.len() || most_alike(driver) <= count_alike(before, driver)
}

// How many databases of a driver there may be: one pipe, since there is one input and one output.
fn most_alike(driver: Option<Driver>) -> usize
    ensures { result ≡ most_alike_of driver }
{
    match driver {
        Some(Driver::Pipe) => 1,
        _ => 16,
    }
}

// How many of the databases keep items as one with this driver does.
fn count_alike(databases: &[List<Field>], driver: Option<Driver>) -> usize
    ensures { result ≡ length (filter (λ other. keep_alike_of (driver_in_of other) driver) databases.now) }
{
    let mut count = 0;
    let mut rest = databases;
    while let [stanza, tail @ ..] = rest {
        if keep_alike(driver_in(stanza.as_slice()), driver) {
            count += 1;
        }
        rest = tail;
    }
    count
}

// Whether both drivers are the same, and keep items themselves.
fn keep_alike(one: Option<Driver>, other: Option<Driver>) -> bool
    ensures { result ≡ keep_alike_of one other }
{
    match (one, other) {
        (Some(Driver::File), Some(Driver::File))
        | (Some(Driver::DirTree), Some(Driver::DirTree))
        | (Some(Driver::PackageDir), Some(Driver::PackageDir))
        | (Some(Driver::Pipe), Some(Driver::Pipe)) => true,
        _ => false,
    }
}

// The fault of a database by itself, and where it is one too many.
fn lone_fault(many: bool, stanza: &[Field]) -> Option<Fault>
    ensures { result ≡ least_of (lone_faults many stanza.now) }
{
    let driver = driver_in(stanza);
    let line = first_line(stanza);
    let fault = fault_if(many, line, ConfKind::TooMany);
    let fault = earlier(fault, missing(stanza, b"name", ConfKind::NoName));
    let fault = earlier(fault, missing(stanza, b"driver", ConfKind::NoDriver));
    let lacks = fault_if(lacks_field(driver, stanza), line, ConfKind::MissingField);
    let fault = earlier(fault, lacks);
    let fault = earlier(fault, unknown_driver(stanza));
    earlier(fault, bad_values(driver, stanza))
}

fn unknown_driver(stanza: &[Field]) -> Option<Fault>
    ensures { result ≡ least_of (unknown_driver_of stanza.now) }
{
    match field_at(stanza, b"driver") {
        Some(field) => fault_if(
            Driver::read(field.value.bytes()).is_none(),
            field.line,
            ConfKind::UnknownDriver,
        ),
        None => None,
    }
}

fn bad_values(driver: Option<Driver>, stanza: &[Field]) -> Option<Fault>
    ensures { result ≡ least_of (flat_map (λ field. fault_if_of (is_bad_by (rules_of driver) field) field.line BadValue) stanza.now) }
{
    let mut least = None;
    let mut rest = stanza;
    while let [field, tail @ ..] = rest {
        least = earlier(
            least,
            fault_if(is_bad(driver, field), field.line, ConfKind::BadValue),
        );
        rest = tail;
    }
    least
}

/// Whether one of the databases has the name.
pub fn is_named(databases: &[List<Field>], name: &[u8]) -> bool
    ensures { result ≡ is_named_of databases.now name.now }
{
    databases
        .iter()
        .any(|stanza| has_name(stanza.as_slice(), name))
}

pub fn has_name(stanza: &[Field], name: &[u8]) -> bool
    ensures { result ≡ has_name_of name.now stanza.now }
{
    match field_at(stanza, b"name") {
        Some(field) => field.value.bytes() == name,
        None => false,
    }
}

// The name is that of an earlier database.
fn repeated_name(before: &[List<Field>], stanza: &[Field]) -> Option<Fault>
    ensures { result ≡ least_of (repeated_name_of before.now stanza.now) }
{
    match field_at(stanza, b"name") {
        Some(field) => fault_if(
            is_named(before, field.value.bytes()),
            field.line,
            ConfKind::Twice,
        ),
        None => None,
    }
}

// The database is kept where an earlier one is.
fn same_place(alloc: Global, before: &[List<Field>], stanza: &[Field]) -> Mem<Option<Fault>>
    ensures { IfOk result (λ fault. fault ≡ least_of (same_place_of before.now stanza.now)) }
{
    let Some(field) = place_in(stanza) else {
        return Ok(None);
    };
    let shares = shares_place(alloc, before, stanza)?;
    Ok(fault_if(shares, field.line, ConfKind::SamePlace))
}

// Whether one of the databases before this one is kept where it is.
fn shares_place(alloc: Global, before: &[List<Field>], stanza: &[Field]) -> Mem<bool>
    ensures { IfOk result (λ shares. shares ≡ list_any (λ earlier. share_place earlier stanza.now) before.now) }
{
    let paths = paths_in(alloc, stanza)?;
    let mut rest = before;
    while let [earlier, tail @ ..] = rest {
        let others = paths_in(alloc, earlier.as_slice())?;
        if some_meet(others.as_slice(), paths.as_slice()) {
            return Ok(true);
        }
        rest = tail;
    }
    Ok(false)
}
