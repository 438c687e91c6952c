// A configuration.
ghost use Rattle.std.specs.Prelude.{◌≡◌, ◌∷◌, true, not, IfOk, codes, is_some, map as each};
ghost use Rattle.std.specs.List.{AllByRecursion, filter};
ghost use Rattle.std.specs.Option.{option_copied};

use crate::checking::find_fault;
use crate::faults::ConfError;
use crate::fields::{Field, field_at, value_at};
use crate::places::{is_made, place_of, sort_in};
use crate::reading::read_stanzas;
use crate::spec::{LayerSort, LayerSpec};
use crate::values::{is_true, octal};
use crate::webs::Web;
use dc_text::{List, Mem, Text};
use std::alloc::Global;
use std::marker::Model;

/// A configuration (debconf.conf(5)). Only `read_conf` makes one.
#[derive(Drop)]
pub struct Conf {
    config: Text,
    templates: Text,
    frontend: Option<Text>,
    priority: Option<Text>,
    // The names of the databases, in the order of the file.
    names: List<Text>,
    // Those that hold items themselves.
    specs: List<LayerSpec>,
    // How each is made, and which of them lead to which.
    web: Web,
}

impl Model for Conf {
    ghost use Rattle.std.specs.Prelude.{IsTrue};
    ghost use Rattle.dc_conf.specs.Configuration.{Configuration, is_sound};

    ghost Value = { Configuration };

    ghost view = { λ c. record { config = c.config; templates = c.templates; frontend = c.frontend; priority = c.priority; databases = c.names; specs = c.specs; nodes = c.web } };

    ghost invariant = { λ c. IsTrue (is_sound (record { config = c.config; templates = c.templates; frontend = c.frontend; priority = c.priority; databases = c.names; specs = c.specs; nodes = c.web })) };
}

ghost use Rattle.dc_conf.specs.Configuration.{IsAnswer, configuration, spec_of, text_at as text_at_of, truth_at as truth_at_of, extension_by as extension_by_of, mode_by as mode_by_of, infd_by, outfd_by, is_connected as is_connected_of, is_sound};
ghost use Rattle.dc_conf.specs.ConfFaults.{value_at as value_in, is_made as is_made_of, sort_in as sort_in_of};
ghost use Rattle.dc_conf.specs.Nodes.{driver_line_of, is_among};

impl Conf {
    /// The name of the database of questions.
    pub fn config(&self) -> &Text
        ensures { result.now ≡ self.now.config }
    {
        &self.config
    }

    /// The name of the database of templates.
    pub fn templates(&self) -> &Text
        ensures { result.now ≡ self.now.templates }
    {
        &self.templates
    }

    pub fn frontend(&self) -> Option<&Text>
        ensures { option_copied result ≡ self.now.frontend }
    {
        self.frontend.as_ref()
    }

    pub fn priority(&self) -> Option<&Text>
        ensures { option_copied result ≡ self.now.priority }
    {
        self.priority.as_ref()
    }

    /// The names of the databases, in the order of the file.
    pub fn databases(&self) -> &List<Text>
        ensures { result.now ≡ self.now.databases }
    {
        &self.names
    }

    /// The line that names the driver of the database of this name, counted from 1. `None` comes exactly where no database has the name.
    pub fn driver_line(&self, name: &Text) -> Option<u64>
        ensures line { result ≡ driver_line_of self.now.nodes name.now }
        ensures known { is_some result ≡ is_among self.now.databases name.now }
    {
        self.web.driver_line(name.bytes())
    }

    /// The databases that hold items themselves.
    pub(crate) fn specs(&self) -> &[LayerSpec]
        ensures value { result.now ≡ self.now.specs }
        ensures sound { is_sound self.now ≡ true }
    {
        self.specs.as_slice()
    }

    /// Which of the databases lead to which.
    pub(crate) fn web(&self) -> &Web
        ensures { result.now ≡ self.now.nodes }
    {
        &self.web
    }
}

/// The configuration that the text is. Where the text has faults, the first pass with one decides: in it the least line, and
/// there the first kind.
pub fn read_conf(alloc: Global, bytes: &[u8]) -> Result<Conf, ConfError>
    ensures { IsAnswer bytes.now result }
{
    let stanzas = read_stanzas(alloc, bytes)?;
    if let Some(fault) = find_fault(alloc, stanzas.as_slice())? {
        return Err(ConfError::Refused {
            line: fault.line,
            kind: fault.kind,
        });
    }
    let conf = configure(alloc, stanzas.as_slice())?;
    Ok(conf)
}

ghost use Rattle.dc_conf.specs.Machine.{AreModes, HasMode, TakesMode};

// The configuration of stanzas without faults.
fn configure(alloc: Global, stanzas: &[List<Field>]) -> Mem<Conf>
    requires modes { AreModes stanzas.now }
    requires sound { is_sound (configuration stanzas.now) ≡ true }
    ensures { IfOk result (λ conf. conf ≡ configuration stanzas.now) }
{
    match stanzas {
        [] => configure_by(alloc, &[], &[]),
        [head, databases @ ..] => configure_by(alloc, head.as_slice(), databases),
    }
}

fn configure_by(alloc: Global, head: &[Field], databases: &[List<Field>]) -> Mem<Conf>
    requires modes { AllByRecursion HasMode databases.now }
    requires sound { is_sound (configuration (head.now ∷ databases.now)) ≡ true }
    ensures { IfOk result (λ conf. conf ≡ configuration (head.now ∷ databases.now)) }
{
    let names = names_of(alloc, databases)?;
    let specs = specs_of(alloc, databases)?;
    let web = Web::of(alloc, databases)?;
    let config = Text::from_bytes(alloc, value_at(head, b"config"))?;
    let templates = Text::from_bytes(alloc, value_at(head, b"templates"))?;
    let frontend = text_at(head, b"frontend")?;
    let priority = text_at(head, b"priority")?;
    Ok(Conf {
        config,
        templates,
        frontend,
        priority,
        names,
        specs,
        web,
    })
}

fn names_of(alloc: Global, databases: &[List<Field>]) -> Mem<List<Text>>
    ensures { IfOk result (λ names. names ≡ each (value_in (codes "name")) databases.now) }
{
    let mut names = List::new(alloc);
    let mut rest = databases;
    while let [stanza, tail @ ..] = rest {
        names.push(Text::from_bytes(alloc, value_at(stanza.as_slice(), b"name"))?)?;
        rest = tail;
    }
    Ok(names)
}

// The databases that hold items themselves.
fn specs_of(alloc: Global, databases: &[List<Field>]) -> Mem<List<LayerSpec>>
    requires { AllByRecursion HasMode databases.now }
    ensures { IfOk result (λ specs. specs ≡ each spec_of (filter (λ stanza. not (is_made_of stanza)) databases.now)) }
{
    let mut specs = List::new(alloc);
    let mut rest = databases;
    while let [stanza, tail @ ..] = rest {
        if !is_made(stanza.as_slice()) {
            specs.push(read_database(alloc, stanza.as_slice())?)?;
        }
        rest = tail;
    }
    Ok(specs)
}

fn read_database(alloc: Global, stanza: &[Field]) -> Mem<LayerSpec>
    requires { TakesMode (sort_in_of stanza.now) stanza.now }
    ensures { IfOk result (λ spec. spec ≡ spec_of stanza.now) }
{
    let name = Text::from_bytes(alloc, value_at(stanza, b"name"))?;
    let sort = sort_in(stanza);
    let place = Text::from_bytes(alloc, place_of(stanza))?;
    let extension = extension_by(alloc, sort, stanza)?;
    let accept_name = text_at(stanza, b"accept-name")?;
    let reject_name = text_at(stanza, b"reject-name")?;
    let accept_type = text_at(stanza, b"accept-type")?;
    let reject_type = text_at(stanza, b"reject-type")?;
    Ok(LayerSpec {
        name,
        sort,
        place,
        extension,
        mode: mode_by(sort, stanza),
        backup: sort == LayerSort::File && truth_at(stanza, b"backup", true),
        infd: sort == LayerSort::Pipe && is_connected(stanza, b"infd", b"0"),
        outfd: sort == LayerSort::Pipe && is_connected(stanza, b"outfd", b"1"),
        readonly: truth_at(stanza, b"readonly", false),
        required: truth_at(stanza, b"required", true),
        accept_name,
        reject_name,
        accept_type,
        reject_type,
    })
}

// What the names of the files of a database of this sort end with: in a folder with `.dat`, unless its stanza says otherwise.
fn extension_by(alloc: Global, sort: LayerSort, stanza: &[Field]) -> Mem<Text>
    ensures { IfOk result (λ extension. extension ≡ extension_by_of sort stanza.now) }
{
    match (sort, field_at(stanza, b"extension")) {
        (LayerSort::File | LayerSort::Pipe, _) => Ok(Text::new(alloc)),
        (LayerSort::Tree | LayerSort::Pack, Some(field)) => field.value.copy(),
        (LayerSort::Tree | LayerSort::Pack, None) => Text::from_bytes(alloc, b".dat"),
    }
}

fn text_at(stanza: &[Field], key: &[u8]) -> Mem<Option<Text>>
    ensures { IfOk result (λ text. text ≡ text_at_of key.now stanza.now) }
{
    match field_at(stanza, key) {
        Some(field) => Ok(Some(field.value.copy()?)),
        None => Ok(None),
    }
}

// Whether the field says `true`, and `default` where it isn't there.
fn truth_at(stanza: &[Field], key: &[u8], default: bool) -> bool
    ensures { result ≡ truth_at_of key.now stanza.now default }
{
    match field_at(stanza, key) {
        Some(field) => is_true(field.value.bytes()),
        None => default,
    }
}

// Whether the field names the descriptor that a pipe is read from or written to, or isn't there.
fn is_connected(stanza: &[Field], key: &[u8], descriptor: &[u8]) -> bool
    ensures { result ≡ is_connected_of key.now descriptor.now stanza.now }
{
    match field_at(stanza, key) {
        Some(field) => field.value.bytes() == descriptor,
        None => true,
    }
}

// The permission bits, 600 where no field says them. Of a tree and of a pipe none does.
fn mode_by(sort: LayerSort, stanza: &[Field]) -> u16
    requires { TakesMode sort stanza.now }
    ensures { result ≡ mode_by_of sort stanza.now }
{
    match (sort, field_at(stanza, b"mode")) {
        (LayerSort::File | LayerSort::Pack, Some(field)) => octal(field.value.bytes()),
        _ => 0o600,
    }
}
