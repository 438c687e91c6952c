// Which databases names reach, and how.
use crate::spec::LayerSpec;
use dc_text::{List, OutOfMemory};
use thiserror::Error;

/// How a database is used: a tree over the places of the databases that hold items themselves.
#[cycle(plan)]
#[derive(Drop)]
pub enum Plan {
    /// One database.
    Leaf(usize),
    /// Several, in the order in which they are asked for an item.
    Stack(PlanList),
    /// One that is written a second time, to the second plan.
    Backup(Box<Plan>, Box<Plan>),
    /// One of which it is told what is done.
    Debug(Box<Plan>),
}

/// The plans of a stack, from the top.
#[cycle(plan)]
#[derive(Drop)]
pub enum PlanList {
    End,
    More(Box<Plan>, Box<PlanList>),
}

/// The databases that hold items themselves, and the plan of each name that was asked for.
#[derive(Drop)]
pub struct Resolved {
    pub specs: List<LayerSpec>,
    pub plans: List<Plan>,
}

/// Why names aren't resolved.
#[derive(Clone, Copy, Debug, PartialEq, Eq, Error)]
pub enum ResolveError {
    /// The first name that no database has: its place among those that were asked for.
    #[error("unknown database")]
    Unknown { root: usize },
    #[error("out of memory")]
    OutOfMemory,
}

impl From<OutOfMemory> for ResolveError {
    ghost use Rattle.std.specs.Prelude.{◌≡◌};
    ghost use Rattle.dc_conf.specs.declared.plans.ResolveError.TheVariants.{OutOfMemory};

    ghost from_gives = { λ _ e. e ≡ OutOfMemory };

    fn from(_: OutOfMemory) -> Self {
        ResolveError::OutOfMemory
    }
}
