// Layers by their places.
ghost use Rattle.std.specs.Prelude.{◌≡◌, ◌<◌, List, Some, None, Ok, IfOk, OnOk, OnErr, length, slice_get, true, false};
ghost use Rattle.std.specs.Option.{option_copied};
ghost use Rattle.dc_layer.specs.State.{LayerState, is_put, after_change, refusal};
ghost use Rattle.dc_store.specs.Holders.{item_at as item_of, has_at as has_of};
ghost use Rattle.dc_store.specs.Writes.{is_writable_at as writable_of, takes_at as takes_of, change_at};

use dc_item::{Item, Op};
use dc_template::Kind;
use dc_text::{Mem, Name};

/// Layers by their places. What goes through a plan is written for these, since functions that call each other take no boxed layers.
pub trait Layers {
    /// What the layers are and hold.
    ghost states: { Self → List LayerState };

    /// The item of the layer at a place. The bytes needn't be a name.
    fn item_at(&self, place: usize, name: &[u8]) -> Option<&Item>
        requires { place < length (states self.now) }
        ensures { option_copied result ≡ item_of (states self.now) place name.now };

    /// Whether the layer at a place is writable.
    fn writable_at(&self, place: usize) -> bool
        requires { place < length (states self.now) }
        ensures { result ≡ writable_of (states self.now) place };

    /// Whether the layer at a place is writable and may hold the item.
    fn takes_at(&self, place: usize, name: &Name, kind: Option<Kind>) -> Mem<bool>
        requires { place < length (states self.now) }
        ensures { IfOk result (λ is. is ≡ takes_of (states self.now) name.now kind place) };

    /// Changes the layer at a place, which takes the change.
    fn change_at(&mut self, place: usize, name: &Name, op: &Op) -> Mem<()>
        requires within { place < length (states self.old) }
        requires taken { (layer : LayerState) → slice_get (states self.old) place ≡ Some layer → refusal layer name.now op.now ≡ None }
        ensures ok { OnOk result (states self.new ≡ change_at (states self.old) place (λ layer. after_change layer name.now op.now)) }
        ensures err { OnErr result (states self.new ≡ states self.old) };

    /// Tries a change that makes no item on the layer at a place, and answers whether the layer took it: it is writable and has the item.
    /// One that doesn't stays as it is.
    fn try_change_at(&mut self, place: usize, name: &Name, op: &Op) -> Mem<bool>
        requires within { place < length (states self.old) }
        requires change { is_put op.now ≡ false }
        ensures writable { result ≡ Ok true → writable_of (states self.old) place ≡ true }
        ensures there { result ≡ Ok true → has_of (states self.old) name.now place ≡ true }
        ensures done { result ≡ Ok true → states self.new ≡ change_at (states self.old) place (λ layer. after_change layer name.now op.now) }
        ensures not_taken { result ≡ Ok false → states self.new ≡ states self.old }
        ensures err { OnErr result (states self.new ≡ states self.old) };
}
