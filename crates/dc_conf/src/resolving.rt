// The databases that names reach.
ghost use Rattle.std.specs.Prelude.{◌≡◌, ◌∷◌, [], IfOk, true, is_some, length, Some};
ghost use Rattle.std.specs.List.{AllByRecursion, filter, find, list_all, list_any};
ghost use Rattle.std.specs.Option.{option_copied};
ghost use Rattle.std.specs.Str.{bytes_eq};
ghost use Rattle.dc_conf.specs.Configuration.{IsResolved, IsOnce, AreDisjoint, are_apart, have_names_apart, fits_sort, is_well_made, place_in as place_in_of, IsPlan, HavePlans};
ghost use Rattle.dc_conf.specs.Machine.{unknown_from};
ghost use Rattle.dc_conf.specs.Nodes.{driver_line_of, form_at as form_at_of, is_node, leads_to};
ghost use Rattle.dc_conf.specs.Plans.{IsOver};
ghost use Rattle.dc_conf.specs.Trees.{shape};

use crate::conf::Conf;
use crate::nodes::{Form, Node};
use crate::plans::{Plan, PlanList, ResolveError, Resolved};
use crate::spec::LayerSpec;
use crate::webs::{Web, is_among};
use dc_text::{Copied, List, Mem, Text};
use std::alloc::Global;

impl Conf {
    /// The databases that hold items themselves and that a root is or reaches, each once, in the order of the file, and the plan of
    /// each root in turn. `Unknown` names the first root that no database has as its name.
    pub fn resolve(&self, alloc: Global, roots: &List<Text>) -> Result<Resolved, ResolveError>
        ensures answer { IsResolved self.now roots.now result }
        // No two of the databases have a place or a name in common.
        ensures places { IfOk result (λ resolved. are_apart resolved.specs ≡ true) }
        ensures names { IfOk result (λ resolved. have_names_apart resolved.specs ≡ true) }
        // The extension and the permission bits of each are such as its sort takes.
        ensures sorts { IfOk result (λ resolved. list_all fits_sort resolved.specs ≡ true) }
        // The line of the driver of each is known.
        ensures made { IfOk result (λ resolved. list_all (λ spec. is_some (driver_line_of self.now.nodes spec.name)) resolved.specs ≡ true) }
        // A plan speaks of these databases alone, and of each in one place at most.
        ensures over { IfOk result (λ resolved. AllByRecursion (λ plan. IsOver (shape plan) (length resolved.specs)) resolved.plans) }
        ensures once { IfOk result (λ resolved. AllByRecursion IsOnce resolved.plans) }
        // The database of questions shares none with that of templates.
        ensures disjoint { roots.now ≡ self.now.config ∷ self.now.templates ∷ [] → IfOk result (λ resolved. AreDisjoint resolved.plans) }
    {
        if let Some(root) = unknown_root(self.databases().as_slice(), roots.as_slice()) {
            return Err(ResolveError::Unknown { root });
        }
        let specs = reached(alloc, self.web(), self.specs(), roots.as_slice())?;
        let plans = plans_of(
            alloc,
            self.web().nodes(),
            specs.as_slice(),
            roots.as_slice(),
        )?;
        Ok(Resolved { specs, plans })
    }
}

// The place of the first root that no database has as its name.
fn unknown_root(databases: &[Text], roots: &[Text]) -> Option<usize>
    ensures { result ≡ unknown_from databases.now 0 roots.now }
{
    let mut place = 0;
    let mut rest = roots;
    while let [root, tail @ ..] = rest {
        if !is_among(databases, root.bytes()) {
            return Some(place);
        }
        place += 1;
        rest = tail;
    }
    None
}

// The databases that some root is or reaches.
fn reached(
    alloc: Global,
    web: &Web,
    databases: &[LayerSpec],
    roots: &[Text],
) -> Mem<List<LayerSpec>>
    ensures { IfOk result (λ specs. specs ≡ filter (λ spec. list_any (λ root. leads_to web.now root spec.name) roots.now) databases.now) }
{
    let mut specs = List::new(alloc);
    let mut rest = databases;
    while let [database, tail @ ..] = rest {
        if web.some_lead_to(roots, database.name.bytes()) {
            specs.push(database.copied()?)?;
        }
        rest = tail;
    }
    Ok(specs)
}

fn plans_of(alloc: Global, nodes: &[Node], specs: &[LayerSpec], roots: &[Text]) -> Mem<List<Plan>>
    requires known { AllByRecursion (λ root. is_node nodes.now root ≡ true) roots.now }
    requires made { list_all (is_well_made nodes.now) nodes.now ≡ true }
    ensures { IfOk result (λ plans. HavePlans nodes.now specs.now plans roots.now) }
{
    let mut plans = List::new(alloc);
    let mut rest = roots;
    while let [root, tail @ ..] = rest {
        plans.push(plan_in(alloc, nodes, specs, root.bytes())?)?;
        rest = tail;
    }
    Ok(plans)
}

// The plan of a name.
fn plan_in(alloc: Global, nodes: &[Node], specs: &[LayerSpec], name: &[u8]) -> Mem<Plan>
    requires known { is_node nodes.now name.now ≡ true }
    requires made { list_all (is_well_made nodes.now) nodes.now ≡ true }
    ensures { IfOk result (λ plan. IsPlan nodes.now specs.now (shape plan) name.now) }
{
    match form_at(nodes, name) {
        Form::Holds => Ok(Plan::Leaf(place_in(specs, name))),
        Form::Stacks(names) => {
            let names = names.as_slice();
            let mut plans = PlanList::End;
            for index in 0..names.len() {
                let name = names[names.len() - 1 - index].bytes();
                let plan = plan_in(alloc, nodes, specs, name)?;
                plans = PlanList::More(Box::new(alloc, plan)?, Box::new(alloc, plans)?);
            }
            Ok(Plan::Stack(plans))
        }
        Form::Backs(db, backupdb) => {
            let first = plan_in(alloc, nodes, specs, db.bytes())?;
            let second = plan_in(alloc, nodes, specs, backupdb.bytes())?;
            Ok(Plan::Backup(Box::new(alloc, first)?, Box::new(alloc, second)?))
        }
        Form::Tells(db) => {
            let plan = plan_in(alloc, nodes, specs, db.bytes())?;
            Ok(Plan::Debug(Box::new(alloc, plan)?))
        }
    }
}

// How the database of the name is made.
fn form_at<'a>(nodes: &'a [Node], name: &[u8]) -> &'a Form
    requires { is_node nodes.now name.now ≡ true }
    ensures { form_at_of nodes.now name.now ≡ Some result.now }
{
    match node_at(nodes, name) {
        Some(node) => &node.form,
        None => unreachable!(),
    }
}

// The database of the name, if there is one.
fn node_at<'a>(nodes: &'a [Node], name: &[u8]) -> Option<&'a Node>
    ensures { option_copied result ≡ find (λ node. bytes_eq node.name name.now) nodes.now }
{
    nodes.iter().find(|node| node.name.bytes() == name)
}

// The place of the database with the name.
fn place_in(specs: &[LayerSpec], name: &[u8]) -> usize
    ensures { result ≡ place_in_of specs.now name.now }
{
    let mut place = 0;
    let mut rest = specs;
    while let [spec, tail @ ..] = rest {
        if spec.name.bytes() == name {
            return place;
        }
        place += 1;
        rest = tail;
    }
    place
}
