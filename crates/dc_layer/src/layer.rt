// A layer, however it is kept.
ghost use Rattle.std.specs.Prelude.{◌≡◌, ◌≢◌, [], None, Some, Err, IfOk, IfErr, OnOk, OnErr, true, false};
ghost use Rattle.std.specs.FinMap as map;
ghost use Rattle.std.specs.List.{IsDistinct};
ghost use Rattle.std.specs.Option.{option_copied};
ghost use Rattle.std.specs.Str.{bytes_eq};
ghost use Rattle.dc_item.specs.Table.{table_of};
ghost use Rattle.dc_item.specs.declared.op.Op.TheVariants.{Put};
ghost use Rattle.dc_layer.specs.State.{LayerState, blank, set_up as set_up_with, taken_in, without_items, is_writable, admits, made_at, after_change, taken_of, refusal, owned, is_file, images as images_of, saved as saved_state};
ghost use Rattle.dc_layer.specs.Rules.{rules_of, are_patterns, are_plain};

use crate::image::Image;
use crate::pattern::PatternError;
use dc_conf::spec::{LayerSort, LayerSpec};
use dc_item::{Item, Op, Records};
use dc_template::Kind;
use dc_text::{List, Mem, Name, OutOfMemory, Text};

/// What a change did.
#[derive(Clone, Copy, Debug, PartialEq, Eq)]
pub enum Taken {
    Same,
    Changed,
    Gone,
}

/// Why a layer takes no change.
#[derive(Clone, Copy, Debug, PartialEq, Eq)]
pub enum LayerError {
    /// The layer isn't writable.
    ReadOnly,
    /// No item has the name, and the operation makes none.
    NotHere,
    OutOfMemory,
}

impl From<OutOfMemory> for LayerError {
    ghost use Rattle.std.specs.Prelude.{◌≡◌};
    ghost use Rattle.dc_layer.specs.declared.layer.LayerError.TheVariants.{OutOfMemory};

    ghost from_gives = { λ _ e. e ≡ OutOfMemory };

    fn from(_: OutOfMemory) -> Self {
        LayerError::OutOfMemory
    }
}

/// A database that holds items itself. The layers above see it by these calls alone.
pub trait Layer: Drop {
    /// What the layer is and holds.
    ghost state: { Self → LayerState };

    fn sort(&self) -> LayerSort
        ensures { result ≡ (state self.now).sort };

    /// Makes a blank layer that of the spec. After a refusal it is blank still.
    fn set_up(&mut self, spec: LayerSpec) -> Result<(), PatternError>
        requires blank { state self.old ≡ blank (state self.old).sort }
        requires sort { spec.sort ≡ (state self.old).sort }
        ensures ok { OnOk result (state self.new ≡ set_up_with (state self.old) spec) }
        ensures err { OnErr result (state self.new ≡ state self.old) }
        ensures built { OnOk result (are_patterns (rules_of spec) ≡ true) }
        ensures bad { result ≡ Err PatternError.Bad → are_patterns (rules_of spec) ≡ false }
        ensures too_large { result ≡ Err PatternError.TooLarge → are_plain (rules_of spec) ≡ false };

    /// Adds an item that was loaded.
    fn take_in(&mut self, name: Name, item: Item) -> Mem<()>
        requires new { map.contains_key (state self.old).table name ≡ false }
        requires untouched { (state self.old).touched ≡ [] }
        ensures ok { OnOk result (state self.new ≡ taken_in (state self.old) name item) }
        ensures err { OnErr result (state self.new ≡ state self.old) };

    /// Makes the records that were loaded the layer's items.
    fn take_all(&mut self, records: Records)
        requires empty { (state self.old).table ≡ map.empty }
        requires untouched { (state self.old).touched ≡ [] }
        ensures { state self.new ≡ record (state self.old) { table = table_of records } };

    /// Keeps the text of the file as it was loaded.
    fn keep_old(&mut self, text: Text)
        ensures { state self.new ≡ record (state self.old) { old = Some text } };

    /// Leaves the layer out: it is empty, takes no change and asks for no files.
    fn leave_out(&mut self)
        ensures left { state self.new ≡ without_items (state self.old) }
        ensures closed { is_writable (state self.new) ≡ false }
        ensures silent { images_of (state self.new) ≡ [] };

    fn has(&self, name: &Name) -> bool
        ensures { result ≡ map.contains_key (state self.now).table name.now };

    fn item(&self, name: &Name) -> Option<&Item>
        ensures { option_copied result ≡ map.get (state self.now).table name.now };

    /// The item whose name the bytes are. They needn't be a name, as where a field names an item.
    fn seek(&self, name: &[u8]) -> Option<&Item>
        ensures { option_copied result ≡ map.get (state self.now).table name.now };

    fn writable(&self) -> bool
        ensures { result ≡ is_writable (state self.now) };

    /// Whether the layer may hold an item of this name and kind.
    fn admits(&self, name: &Name, kind: Option<Kind>) -> Mem<bool>
        ensures { IfOk result (λ is. is ≡ admits (state self.now) name.now kind) };

    /// Does the operation on the item of the name. After any refusal the layer is as before.
    fn change(&mut self, name: &Name, op: &Op) -> Result<Taken, LayerError>
        ensures taken { IfOk result (λ taken. taken ≡ taken_of (made_at (state self.old) name.now op.now)) }
        ensures ok { OnOk result (state self.new ≡ after_change (state self.old) name.now op.now) }
        ensures allowed { OnOk result (refusal (state self.old) name.now op.now ≡ None) }
        ensures cause { IfErr result (λ error. error ≢ LayerError.OutOfMemory → refusal (state self.old) name.now op.now ≡ Some error) }
        ensures err { OnErr result (state self.new ≡ state self.old) };

    /// Puts the item at the name: the operation that puts it, by which neither is copied. After any refusal the layer is as
    /// before.
    fn put(&mut self, name: Name, item: Item) -> Result<Taken, LayerError>
        ensures taken { IfOk result (λ taken. taken ≡ taken_of (made_at (state self.old) name (Put item))) }
        ensures ok { OnOk result (state self.new ≡ after_change (state self.old) name (Put item)) }
        ensures allowed { OnOk result (refusal (state self.old) name (Put item) ≡ None) }
        ensures cause { IfErr result (λ error. error ≢ LayerError.OutOfMemory → refusal (state self.old) name (Put item) ≡ Some error) }
        ensures err { OnErr result (state self.new ≡ state self.old) };

    /// The names of the items, in byte order.
    fn names(&self) -> Mem<List<Name>>
        ensures { IfOk result (λ names. names ≡ map.keys (state self.now).table) };

    /// The names of the items that have the owner, in byte order.
    fn owned(&self, owner: &Name) -> Mem<List<Name>>
        ensures { IfOk result (λ names. names ≡ owned (state self.now).table owner.now) };

    /// The files that what was touched asks for. No name is touched twice.
    fn images(&self) -> Mem<List<Image>>
        ensures images { IfOk result (λ images. images ≡ images_of (state self.now)) }
        ensures distinct { IsDistinct bytes_eq (state self.now).touched };

    /// Takes note that the layer's images were saved. Only one in one file asks which they were.
    fn mark_saved(&mut self, saved: List<Image>)
        requires { is_file (state self.old).sort ≡ true → saved ≡ images_of (state self.old) }
        ensures { state self.new ≡ saved_state (state self.old) };
}
