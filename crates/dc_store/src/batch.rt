// A row of writes.
ghost use Rattle.std.specs.Prelude.{◌≡◌, ◌∷◌, ◌++◌, [], IfOk, OnOk, OnErr};

use dc_conf::plans::Plan;
use dc_item::Op;
use dc_template::Kind;
use dc_text::{List, Mem, Name};
use std::alloc::Global;
use std::marker::Model;

/// The names of the items for which a write is done.
#[derive(Drop)]
pub enum ReportedFor {
    /// The name of the item that is written.
    Itself,
    Names(List<Name>),
}

/// A write: an operation on the item of a name, of which the kind may be known, in a plan; and the names of the items for which it
/// is done, by which its refusal is told.
#[derive(Drop)]
pub struct Write<'p> {
    pub plan: &'p Plan,
    pub name: Name,
    pub kind: Option<Kind>,
    pub op: Op,
    pub reported_for: ReportedFor,
}

impl<'p> Model for Write<'p> {
    ghost use Rattle.std.specs.Coded.{codes};
    ghost use Rattle.dc_item.specs.Item.{parts_code};
    ghost use Rattle.dc_store.specs.TreeCodes.{tree_code};
    ghost use Rattle.dc_conf.specs.Trees.{shape};
    ghost use Rattle.dc_store.specs.Batches.{Write as WriteOf, names_for};

    ghost Value = { WriteOf };

    ghost coded = { Prim.hlevel (codes, parts_code, tree_code) };

    ghost view = { λ w. record { plan = shape w.plan.now; name = w.name; kind = w.kind; op = w.op; reported_for = names_for w.name w.reported_for } };
}

/// What a test of a write tells: where it lands.
#[derive(Clone, Copy)]
pub(crate) enum Target {
    /// It is refused.
    Nowhere,
    /// It is taken.
    Anywhere,
    /// It puts an item, which goes to the layer at this place as it is.
    At(usize),
}

/// Writes in order, of which all are done or none.
#[derive(Drop)]
pub struct Batch<'p> {
    alloc: Global,
    writes: Vec<Write<'p>>,
}

impl<'p> Model for Batch<'p> {
    ghost use Rattle.std.specs.Prelude.{List};
    ghost use Rattle.std.specs.Coded.{codes};
    ghost use Rattle.dc_item.specs.Item.{parts_code};
    ghost use Rattle.dc_store.specs.TreeCodes.{tree_code};
    ghost use Rattle.dc_store.specs.Batches.{Write as WriteOf};

    ghost Value = { List WriteOf };

    ghost coded = { Prim.hlevel (codes, parts_code, tree_code) };

    ghost view = { λ r. r.writes.items };
}

impl<'p> Batch<'p> {
    /// No write.
    pub fn new(alloc: Global) -> Self
        ensures { result ≡ [] }
    {
        Batch {
            alloc,
            writes: Vec::new(alloc),
        }
    }

    /// No write, with room for so many.
    pub fn with_capacity(alloc: Global, count: usize) -> Mem<Self>
        ensures { IfOk result (λ batch. batch ≡ []) }
    {
        Ok(Batch {
            alloc,
            writes: Vec::with_capacity(alloc, count)?,
        })
    }

    /// Adds the write at the end.
    pub fn push(&mut self, write: Write<'p>) -> Mem<()>
        ensures ok { OnOk result (self.new ≡ self.old ++ write.entry ∷ []) }
        ensures err { OnErr result (self.new ≡ self.old) }
    {
        self.writes.push(write)?;
        Ok(())
    }

    /// The writes, in order.
    pub fn as_slice(&self) -> &[Write<'p>]
        ensures { result.now ≡ self.now }
    {
        self.writes.as_slice()
    }

    // Takes the writes out.
    pub(crate) fn take_all(&mut self) -> Vec<Write<'p>>
        ensures taken { result.items ≡ self.old }
        ensures left { self.new ≡ [] }
    {
        std::mem::replace(&mut self.writes, Vec::new(self.alloc))
    }
}
