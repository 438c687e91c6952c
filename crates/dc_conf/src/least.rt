// The fault on the least line.
ghost use Rattle.std.specs.Prelude.{◌≡◌};
ghost use Rattle.dc_conf.specs.ConfFaults.{fault_if as fault_if_of};
ghost use Rattle.dc_conf.specs.Machine.{earlier_of, least_of};

use crate::faults::{ConfKind, Fault};

/// The fault on the lesser line, at one line the first.
pub fn earlier(first: Option<Fault>, second: Option<Fault>) -> Option<Fault>
    ensures { result ≡ earlier_of first second }
{
    match (first, second) {
        (None, other) => other,
        (Some(fault), None) => Some(fault),
        (Some(fault), Some(other)) => {
            if fault.line <= other.line {
                Some(fault)
            } else {
                Some(other)
            }
        }
    }
}

/// A fault where this is so.
pub fn fault_if(is: bool, line: u64, kind: ConfKind) -> Option<Fault>
    ensures { result ≡ least_of (fault_if_of is line kind) }
{
    if is { Some(Fault { line, kind }) } else { None }
}
