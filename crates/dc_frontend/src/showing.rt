// Which questions are shown.
ghost use Rattle.std.specs.Prelude.{◌≡◌};
ghost use Rattle.dc_frontend.specs.Showing.{is_shown as is_shown_of};

use dc_proto::Priority;
use dc_template::Kind;

/// Whether a question is shown where only those of at least a threshold are (debconf-devel(7), INPUT). An error is always shown, and
/// a title never. Any other question is shown where its priority is at least the threshold and it wasn't seen.
pub fn is_shown(threshold: Priority, priority: Priority, kind: Kind, seen: bool) -> bool
    ensures { result ≡ is_shown_of threshold priority kind seen }
{
    match kind {
        Kind::Error => true,
        Kind::Title => false,
        _ => priority.is_at_least(threshold) && !seen,
    }
}
