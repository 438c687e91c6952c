//! Laws of writes: what "a write changes only the layers that the rules name" means.
ghost use Rattle.std.specs.Prelude.{◌≡◌, ◌≢◌, ℕ, List, [], Option, Some, None, option_map, is_some, true, false, ◌⊎◌};
ghost use Rattle.std.specs.List.{All, Contains};
ghost use Rattle.dc_conf.specs.Trees.{Tree, Trees, Stack, Debug};
ghost use Rattle.dc_conf.specs.Plans.{all_places, leaves, leaves_of, seconds};
ghost use Rattle.dc_item.specs.Item.{ItemParts};
ghost use Rattle.dc_item.specs.After.{after_at};
ghost use Rattle.dc_item.specs.declared.op.Op.{Op};
ghost use Rattle.dc_item.specs.declared.op.After.TheVariants.{Same, Changed, Gone};
ghost use Rattle.dc_template.specs.declared.kinds.Kind.{Kind};
ghost use Rattle.dc_layer.specs.State.{LayerState};
ghost use Rattle.dc_store.specs.Copies.{copy_place};
ghost use Rattle.dc_store.specs.Holders.{item_at, has_at, holder_of, look_of, above};
ghost use Rattle.dc_store.specs.Plans.{StoreState, stored, holder, look, look_below, look_after, can_change, write, would_take};
ghost use Rattle.dc_store.specs.Batches.{Write, AreDistinct, is_refused};
ghost use Rattle.dc_store.specs.StoreLaws.{AreSameBut, AreAlikeBut, IsTopmost, IsTaken, IsRefusal, KeepsApart, IsOnce, IsFlat};
ghost use Rattle.dc_store.specs.Writes.{is_writable_at, put_at, write_of};

/// The holder is the topmost of the places whose layer has the item, and there is none exactly where no layer has it.
pub fn holders_are_topmost()
    ensures found { (layers : List LayerState) (places name : List ℕ) (place : ℕ)
        → holder_of layers places name ≡ Some place → IsTopmost layers places name place }
    ensures topmost { (layers : List LayerState) (places name : List ℕ) (place : ℕ)
        → IsTopmost layers places name place → holder_of layers places name ≡ Some place }
    ensures none { (layers : List LayerState) (places name : List ℕ)
        → holder_of layers places name ≡ None → All (λ place. has_at layers name place ≡ false) places }
{}

/// Every other name keeps its item in every layer, and no layer changes in anything else.
pub fn other_names_stay()
    ensures { (store new : StoreState) (plan : Tree) (name : List ℕ) (kind : Option Kind) (op : Op)
        → write store plan name kind op ≡ Some new → AreSameBut name store.layers new.layers }
{}

/// A layer of which the plan doesn't speak stays as it is.
pub fn other_layers_stay()
    ensures { (store new : StoreState) (plan : Tree) (name : List ℕ) (kind : Option Kind) (op : Op)
        → write store plan name kind op ≡ Some new → AreAlikeBut (all_places plan) store.layers new.layers }
{}

/// Apart from the second plans of backups a write changes no layer, or one: no layer above it has the item, and it is writable, and had
/// the item or admits it. It gets the whole of what the operation makes of the item that is seen.
pub fn writes_change_one_layer()
    ensures { (store new : StoreState) (plan : Tree) (name : List ℕ) (kind : Option Kind) (op : Op) → write store plan name kind op ≡ Some new
        → IsTaken store.layers plan name kind (after_at op (look store.layers plan name)) new.layers }
{}

/// What is written is seen, unless the plan writes it a second time to a place that is asked.
pub fn writes_are_seen()
    ensures { (store new : StoreState) (plan : Tree) (name : List ℕ) (kind : Option Kind) (op : Op) (item : ItemParts) → KeepsApart plan
        → write store plan name kind op ≡ Some new → after_at op (look store.layers plan name) ≡ Changed item
        → look new.layers plan name ≡ Some item }
{}

/// Where the item stays as it is, the same is seen.
pub fn what_stays_is_seen()
    ensures { (store new : StoreState) (plan : Tree) (name : List ℕ) (kind : Option Kind) (op : Op) → KeepsApart plan
        → write store plan name kind op ≡ Some new → after_at op (look store.layers plan name) ≡ Same
        → look new.layers plan name ≡ look store.layers plan name }
{}

/// Where the item goes, the one below is seen, if no place is asked twice.
pub fn what_stood_below_is_seen()
    ensures { (store new : StoreState) (plan : Tree) (name : List ℕ) (kind : Option Kind) (op : Op) → KeepsApart plan → IsOnce (leaves plan)
        → write store plan name kind op ≡ Some new → after_at op (look store.layers plan name) ≡ Gone
        → look new.layers plan name ≡ look_below store.layers plan name }
{}

/// What the operation left is seen once its write is taken. One exception: it took the item away from a layer that is asked again below, so
/// that the item below it was the same one.
pub fn taken_writes_are_seen()
    ensures { (store new : StoreState) (plan : Tree) (name : List ℕ) (kind : Option Kind) (op : Op)
        → KeepsApart plan → write store plan name kind op ≡ Some new
        → (look new.layers plan name ≡ look_after store.layers plan name op)
        ⊎ ((after_at op (look store.layers plan name) ≡ Gone) × (look_below store.layers plan name ≡ look store.layers plan name)) }
{}

/// A write is taken exactly where its test says so, whatever was told before.
pub fn tests_are_true()
    ensures { (store : StoreState) (plan : Tree) (name : List ℕ) (kind : Option Kind) (op : Op)
        → is_some (write store plan name kind op) ≡ would_take store.layers plan name kind op }
{}

/// No write changes whether another is refused, where their names differ or their plans share no layer.
pub fn tests_are_apart()
    ensures { (store new : StoreState) (v w : Write)
        → AreDistinct v w → write store v.plan v.name v.kind v.op ≡ Some new → is_refused new.layers w ≡ is_refused store.layers w }
{}

/// What leaves the item as it is is always taken.
pub fn what_stays_is_taken()
    ensures { (layers : List LayerState) (plan : Tree) (name : List ℕ) (kind : Option Kind) (op : Op)
        → after_at op (look layers plan name) ≡ Same → would_take layers plan name kind op ≡ true }
{}

/// What can be changed is there, and takes every operation that doesn't take it away. What is there and can't be changed takes none
/// that changes it.
pub fn changeable_items_take_changes()
    ensures there { (layers : List LayerState) (plan : Tree) (name : List ℕ) (kind : Option Kind)
        → can_change layers plan name kind ≡ true → is_some (look layers plan name) ≡ true }
    ensures taken { (layers : List LayerState) (plan : Tree) (name : List ℕ) (kind : Option Kind) (op : Op)
        → can_change layers plan name kind ≡ true → after_at op (look layers plan name) ≢ Gone → would_take layers plan name kind op ≡ true }
    ensures refused { (layers : List LayerState) (plan : Tree) (name : List ℕ) (kind : Option Kind) (op : Op)
        → is_some (look layers plan name) ≡ true → can_change layers plan name kind ≡ false → after_at op (look layers plan name) ≢ Same
        → would_take layers plan name kind op ≡ false }
{}

/// Where the holder isn't writable, the changed item goes to the innermost stack that has a taking place above the holder, and there to
/// the topmost. Without such a place the write is refused.
pub fn copies_go_to_the_innermost_stack()
    ensures copied { (store new : StoreState) (plan : Tree) (name : List ℕ) (kind : Option Kind) (op : Op) (item : ItemParts) (place : ℕ)
        → holder store.layers plan name ≡ Some place → is_writable_at store.layers place ≡ false
        → after_at op (look store.layers plan name) ≡ Changed item → write store plan name kind op ≡ Some new
        → ((target : ℕ) × (copy_place store.layers plan name kind ≡ Some target)
        × AreAlikeBut (seconds plan) (put_at store.layers target name (Changed item)) new.layers) }
    ensures refused { (store : StoreState) (plan : Tree) (name : List ℕ) (kind : Option Kind) (op : Op) (item : ItemParts) (place : ℕ)
        → holder store.layers plan name ≡ Some place → is_writable_at store.layers place ≡ false
        → after_at op (look store.layers plan name) ≡ Changed item → write store plan name kind op ≡ None
        → copy_place store.layers plan name kind ≡ None }
{}

/// A plan that tells what is done writes what its plan writes.
pub fn telling_changes_nothing()
    ensures { (store : StoreState) (plan : Tree) (name : List ℕ) (kind : Option Kind) (op : Op)
        → option_map (λ s. s.layers) (write store (Debug plan) name kind op) ≡ option_map (λ s. s.layers) (write store plan name kind op) }
{}

/// A stack of databases alone is written by five cases.
pub fn flat_stacks_are_written_by_cases()
    ensures { (store : StoreState) (plans : Trees) (name : List ℕ) (kind : Option Kind) (op : Op) → IsFlat plans
        → write store (Stack plans) name kind op ≡ option_map (λ layers. stored layers store.told) (write_of store.layers (leaves_of plans) name kind op) }
{}

/// By these, where the holder isn't writable, a layer above it gets a copy of the whole item with the change, and the holder keeps its own.
pub fn copies_are_whole()
    ensures { (layers new : List LayerState) (places name : List ℕ) (kind : Option Kind) (op : Op) (item : ItemParts) (holder : ℕ)
        → write_of layers places name kind op ≡ Some new
        → after_at op (look_of layers places name) ≡ Changed item → holder_of layers places name ≡ Some holder → is_writable_at layers holder ≡ false
        → ((place : ℕ) × Contains (above layers places name) place × (item_at new place name ≡ Some item)
        × (item_at new holder name ≡ item_at layers holder name)) }
{}

/// By these a write is refused only where it would change the item, no writable layer holds it, and it would go or no layer takes it.
pub fn refusals_have_a_cause()
    ensures { (layers : List LayerState) (places name : List ℕ) (kind : Option Kind) (op : Op)
        → write_of layers places name kind op ≡ None → IsRefusal layers places name kind op }
{}
