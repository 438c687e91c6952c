// What came from the user.
ghost use Rattle.std.specs.Prelude.{◌≡◌};
ghost use Rattle.dc_session.specs.ReadAhead.{nothing_typed};

use dc_teletype::Teletype;
use std::alloc::Global;
use std::marker::Model;

/// What came from the user and isn't used yet, and how many lines of a wire came in this run.
#[derive(Drop)]
pub struct ReadAhead {
    pub(crate) alloc: Global,
    pub(crate) teletype: Teletype,
    pub(crate) got: u64,
}

impl Model for ReadAhead {
    ghost use Rattle.dc_session.specs.ReadAhead.{ReadAhead};

    ghost Value = { ReadAhead };

    ghost view = { λ s. record { typed = s.teletype.ahead; got = s.got } };
}

impl ReadAhead {
    /// Nothing came yet.
    pub fn new(alloc: Global) -> ReadAhead
        ensures { result ≡ nothing_typed }
    {
        ReadAhead {
            alloc,
            teletype: Teletype::new(alloc),
            got: 0,
        }
    }
}
