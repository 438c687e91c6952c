// What is told of a copy.
ghost use Rattle.std.specs.Prelude.{◌≡◌, OnOk};
ghost use Rattle.dc_tools.specs.Copying.{first_report, put_told, refusal_told};

use dc_text::{Mem, Name, Text};

/// What is told of a copy.
#[derive(Drop)]
pub struct CopyReport {
    /// The lines, item by item: what the layers told of it, or that it can't be changed.
    pub lines: Text,
    /// Whether an item was refused.
    pub refused: bool,
}

impl CopyReport {
    // The report before the first item, of what was told before.
    pub(crate) fn new(told: Text) -> Self
        ensures { result ≡ first_report told }
    {
        CopyReport {
            lines: told,
            refused: false,
        }
    }

    // Tells these lines of an item that was put.
    pub(crate) fn tell_put(&mut self, lines: &Text) -> Mem<()>
        ensures { OnOk result (self.new ≡ put_told self.old lines.now) }
    {
        self.lines.append(lines.bytes())
    }

    // Tells of an item that was refused.
    pub(crate) fn tell_refusal(&mut self, name: &Name) -> Mem<()>
        ensures { OnOk result (self.new ≡ refusal_told self.old name.now) }
    {
        self.refused = true;
        self.lines.append(name.bytes())?;
        self.lines.append(b" can't be changed\n")
    }
}
