// Which databases lead to which.
ghost use Rattle.std.specs.Prelude.{◌≡◌, ◌∷◌, ◌≤◌, ◌||◌, IfOk, map as each, length, false, [], slice_get};
ghost use Rattle.std.specs.List.{AllByRecursion, list_any, position_or_len as position_of};
ghost use Rattle.std.specs.Option.{unwrap_or};
ghost use Rattle.std.specs.Str.{bytes_eq};
ghost use Rattle.dc_conf.specs.ConfFaults.{nodes_of as nodes_of_stanzas};
ghost use Rattle.dc_conf.specs.Machine.{flags_of, joined, widened, share_flag, rows_over, direct_row, led_row, marked, all_marked, places_from};
ghost use Rattle.dc_conf.specs.Nodes.{named_in, is_among as is_among_of, is_node, names_of, driver_line_of, leads_to as leads_to_of, names_meet, repeats, two_meet as two_meet_of};

use crate::fields::Field;
use crate::nodes::{Form, Node, nodes_of};
use dc_text::{List, Mem, Text, TextMap};
use std::alloc::Global;
use std::marker::Model;

/// Databases, and which of them lead to which.
#[derive(Drop)]
pub struct Web {
    nodes: List<Node>,
    // The place of each name among them.
    places: TextMap<usize>,
    // For each database in turn a flag for each: it is that one, or reaches it.
    rows: Vec<Vec<bool>>,
}

impl Model for Web {
    ghost use Rattle.std.specs.Prelude.{List, false};
    ghost use Rattle.dc_conf.specs.declared.nodes.Node.{Node};
    ghost use Rattle.dc_conf.specs.Machine.{IsWeb};

    ghost Value = { List Node };

    ghost view = { λ web. web.nodes };

    ghost invariant = { λ web. IsWeb web.nodes web.places web.rows };
}

impl Web {
    /// The databases of stanzas.
    pub fn of(alloc: Global, databases: &[List<Field>]) -> Mem<Self>
        requires { repeats (names_of (nodes_of_stanzas databases.now)) ≡ false }
        ensures { IfOk result (λ web. web ≡ nodes_of_stanzas databases.now) }
    {
        let nodes = nodes_of(alloc, databases)?;
        let places = places_of(alloc, nodes.as_slice())?;
        let rows = rows_of(alloc, nodes.as_slice(), &places)?;
        Ok(Web {
            nodes,
            places,
            rows,
        })
    }

    pub fn nodes(&self) -> &[Node]
        ensures { result.now ≡ self.now }
    {
        self.nodes.as_slice()
    }

    /// Whether one of the databases has the name.
    pub fn has(&self, name: &[u8]) -> bool
        ensures { result ≡ is_node self.now name.now }
    {
        self.places.contains(name)
    }

    /// The line that names the driver of the database with the name, if there is one.
    pub fn driver_line(&self, name: &[u8]) -> Option<u64>
        ensures { result ≡ driver_line_of self.now name.now }
    {
        line_of(self.nodes.as_slice(), name)
    }

    /// Whether one of the names leads to this one.
    pub fn some_lead_to(&self, names: &[Text], name: &[u8]) -> bool
        ensures { result ≡ list_any (λ other. leads_to_of self.now other name.now) names.now }
    {
        let place = self.place(name);
        let mut rest = names;
        while let [other, tail @ ..] = rest {
            if self.leads_to(other.bytes(), name, place) {
                return true;
            }
            rest = tail;
        }
        false
    }

    // Whether the name is the other, or its database reaches that of the other, which has this place.
    fn leads_to(&self, name: &[u8], other: &[u8], place: usize) -> bool
        requires { place ≡ position_of (bytes_eq other.now) (names_of self.now) }
        ensures { result ≡ leads_to_of self.now name.now other.now }
    {
        name == other || flag_at(self.row(name), place)
    }

    /// Whether the databases of the two names meet.
    pub fn meet(&self, one: &[u8], other: &[u8]) -> bool
        ensures { result ≡ names_meet self.now one.now other.now }
    {
        shares_flag(self.row(one), self.row(other))
    }

    /// Whether two of the names are those of one database, or of two that meet.
    pub fn two_meet(&self, alloc: Global, names: &[Text]) -> Mem<bool>
        ensures { IfOk result (λ meet. meet ≡ two_meet_of self.now names.now) }
    {
        let mut led = no_flags(alloc, self.nodes.as_slice())?;
        let mut rest = names;
        while let [name, tail @ ..] = rest {
            let row = self.row(name.bytes());
            if shares_flag(led.as_slice(), row) {
                return Ok(true);
            }
            join_row(&mut led, row);
            rest = tail;
        }
        Ok(false)
    }

    // The flags of the database with the name, none where there is no such database.
    fn row(&self, name: &[u8]) -> &[bool]
        ensures { result.now ≡ led_row self.now name.now }
    {
        let place = self.place(name);
        if place < self.rows.len() {
            self.rows[place].as_slice()
        } else {
            &[]
        }
    }

    // The place of the database with the name, past the others where there is no such database.
    fn place(&self, name: &[u8]) -> usize
        ensures { result ≡ position_of (bytes_eq name.now) (names_of self.now) }
    {
        match self.places.get(name) {
            Some(place) => *place,
            None => self.nodes.as_slice().len(),
        }
    }
}

// The line that names the driver of the database with the name, if there is one.
fn line_of(nodes: &[Node], name: &[u8]) -> Option<u64>
    ensures { result ≡ driver_line_of nodes.now name.now }
{
    match nodes.iter().find(|node| node.name.bytes() == name) {
        Some(node) => Some(node.line),
        None => None,
    }
}

// The place of each name: of one that stands twice the first.
fn places_of(alloc: Global, nodes: &[Node]) -> Mem<TextMap<usize>>
    ensures { IfOk result (λ places. places ≡ places_from 0 nodes.now) }
{
    let mut places = TextMap::new(alloc);
    let mut place = nodes.len();
    while 0 < place {
        place -= 1;
        places.insert(nodes[place].name.copy()?, place)?;
    }
    Ok(places)
}

// The rows of the databases: first what each names, and then what it reaches by way of one more at a time.
fn rows_of(alloc: Global, nodes: &[Node], places: &TextMap<usize>) -> Mem<Vec<Vec<bool>>>
    requires apart { repeats (names_of nodes.now) ≡ false }
    requires places { places.now ≡ places_from 0 nodes.now }
    ensures { IfOk result (λ rows. flags_of rows ≡ rows_over nodes.now (names_of nodes.now)) }
{
    let mut rows = direct_rows(alloc, nodes, places)?;
    let mut place = nodes.len();
    while 0 < place {
        place -= 1;
        let through = copy_row(alloc, rows[place].as_slice())?;
        widen_all(&mut rows, place, through.as_slice());
    }
    Ok(rows)
}

fn direct_rows(alloc: Global, nodes: &[Node], places: &TextMap<usize>) -> Mem<Vec<Vec<bool>>>
    requires apart { repeats (names_of nodes.now) ≡ false }
    requires places { places.now ≡ places_from 0 nodes.now }
    ensures { IfOk result (λ rows. flags_of rows ≡ each (λ node. direct_row node nodes.now) nodes.now) }
{
    let mut rows = Vec::new(alloc);
    let mut rest = nodes;
    while let [node, tail @ ..] = rest {
        rows.push(row_of(alloc, nodes, places, node)?)?;
        rest = tail;
    }
    Ok(rows)
}

// A flag for each of the databases: it is the one, or the one names it.
fn row_of(alloc: Global, nodes: &[Node], places: &TextMap<usize>, node: &Node) -> Mem<Vec<bool>>
    requires apart { repeats (names_of nodes.now) ≡ false }
    requires places { places.now ≡ places_from 0 nodes.now }
    ensures { IfOk result (λ row. row.items ≡ direct_row node.now nodes.now) }
{
    let mut row = no_flags(alloc, nodes)?;
    mark_row(&mut row, places, node);
    Ok(row)
}

fn mark_row(row: &mut Vec<bool>, places: &TextMap<usize>, node: &Node)
    ensures { row.new.items ≡ all_marked places.now row.old.items (node.now.name ∷ named_in node.now.form) }
{
    let flags = row.as_mut_slice();
    mark(flags, places, node.name.bytes());
    mark_named(flags, places, &node.form);
}

// What a database that is made so names gets a flag.
fn mark_named(row: &mut [bool], places: &TextMap<usize>, form: &Form)
    ensures { row.new ≡ all_marked places.now row.old (named_in form.now) }
{
    match form {
        Form::Holds => {}
        Form::Stacks(names) => mark_all(row, places, names.as_slice()),
        Form::Backs(db, backupdb) => {
            mark(row, places, db.bytes());
            mark(row, places, backupdb.bytes());
        }
        Form::Tells(db) => mark(row, places, db.bytes()),
    }
}

fn mark_all(row: &mut [bool], places: &TextMap<usize>, names: &[Text])
    ensures { row.new ≡ all_marked places.now row.old names.now }
{
    let mut rest = names;
    while let [name, tail @ ..] = rest {
        mark(row, places, name.bytes());
        rest = tail;
    }
}

// The database of the name gets a flag, if there is one.
fn mark(row: &mut [bool], places: &TextMap<usize>, name: &[u8])
    ensures { row.new ≡ marked places.now row.old name.now }
{
    let Some(place) = places.get(name) else {
        return;
    };
    if *place < row.len() {
        row[*place] = true;
    }
}

// No flag for any of the databases.
fn no_flags(alloc: Global, nodes: &[Node]) -> Mem<Vec<bool>>
    ensures { IfOk result (λ row. row.items ≡ each (λ _. false) nodes.now) }
{
    let mut row = Vec::new(alloc);
    let mut rest = nodes;
    while let [_, tail @ ..] = rest {
        row.push(false)?;
        rest = tail;
    }
    Ok(row)
}

fn copy_row(alloc: Global, row: &[bool]) -> Mem<Vec<bool>>
    ensures { IfOk result (λ copy. copy.items ≡ row.now) }
{
    let mut copy = Vec::new(alloc);
    let mut rest = row;
    while let [flag, tail @ ..] = rest {
        copy.push(*flag)?;
        rest = tail;
    }
    Ok(copy)
}

fn widen_all(rows: &mut Vec<Vec<bool>>, place: usize, through: &[bool])
    requires { AllByRecursion (λ row. length through.now ≤ length row.items) rows.old.items }
    ensures { flags_of rows.new ≡ each (widened place through.now) (flags_of rows.old) }
{
    widen(rows.as_mut_slice(), place, through);
}

// Each row with a flag at the place gets those of the row there.
fn widen(rows: &mut [Vec<bool>], place: usize, through: &[bool])
    requires { AllByRecursion (λ row. length through.now ≤ length row.items) rows.old }
    ensures { each (λ row. row.items) rows.new ≡ each (widened place through.now) (each (λ row. row.items) rows.old) }
{
    for index in 0..rows.len() {
        let row = &mut rows[index];
        widen_row(row, place, through);
    }
}

fn widen_row(row: &mut Vec<bool>, place: usize, through: &[bool])
    requires { length through.now ≤ length row.old.items }
    ensures { row.new.items ≡ widened place through.now row.old.items }
{
    if flag_at(row.as_slice(), place) {
        join(row.as_mut_slice(), through);
    }
}

fn join_row(row: &mut Vec<bool>, other: &[bool])
    requires { length other.now ≤ length row.old.items }
    ensures { row.new.items ≡ joined row.old.items other.now }
{
    join(row.as_mut_slice(), other);
}

// The flags of the one get those of the other.
fn join(row: &mut [bool], other: &[bool])
    requires { length other.now ≤ length row.old }
    ensures { row.new ≡ joined row.old other.now }
{
    for index in 0..other.len() {
        row[index] = either(row[index], other[index]);
    }
}

fn either(one: bool, other: bool) -> bool
    ensures { result ≡ (one || other) }
{
    one || other
}

// Whether one place has a flag in both.
fn shares_flag(row: &[bool], other: &[bool]) -> bool
    ensures { result ≡ share_flag row.now other.now }
{
    let [one, flags @ ..] = row else {
        return false;
    };
    let [two, others @ ..] = other else {
        return false;
    };
    (*one && *two) || shares_flag(flags, others)
}

fn flag_at(row: &[bool], place: usize) -> bool
    ensures { result ≡ unwrap_or (slice_get row.now place) false }
{
    match row.get(place) {
        Some(flag) => *flag,
        None => false,
    }
}

/// Whether the name is one of these.
pub fn is_among(names: &[Text], name: &[u8]) -> bool
    ensures { result ≡ is_among_of names.now name.now }
{
    names.iter().any(|other| name == other.bytes())
}
