//! Laws of the definitions, which show that they mean what they say.
ghost use Rattle.std.specs.Prelude.{◌≡◌, ◌⊎◌, ◌↔◌, ℕ, List, [], true};
ghost use Rattle.std.specs.List.{AllByRecursion};
ghost use Rattle.dc_conf.specs.ConfExamples.{Examples};
ghost use Rattle.dc_conf.specs.ConfFaults.{Decides, passes};
ghost use Rattle.dc_conf.specs.declared.faults.Fault.{Fault};
ghost use Rattle.dc_conf.specs.Configuration.{Configuration, IsAnswer, IsPlan, is_sound};
ghost use Rattle.dc_conf.specs.declared.nodes.Node.{Node};
ghost use Rattle.dc_conf.specs.declared.spec.LayerSpec.{LayerSpec};
ghost use Rattle.dc_conf.specs.Nodes.{names_it, reaches};
ghost use Rattle.dc_conf.specs.Reaching.{Reaches};
ghost use Rattle.dc_conf.specs.Trees.{Tree};

/// The faults of some texts, and a database of one, as they are worked out.
pub fn faults_are_worked_out()
    ensures { Examples }
{}

/// A text has no fault, or one that decides, and not both.
pub fn texts_have_one_answer()
    ensures one_fault { (text : List ℕ) (first other : Fault) → Decides (passes text) first → Decides (passes text) other → first ≡ other }
    ensures not_both { (text : List ℕ) (first : Fault) → AllByRecursion (λ faults. faults ≡ []) (passes text) → Decides (passes text) first → ⊥ }
    ensures some { (text : List ℕ) → AllByRecursion (λ faults. faults ≡ []) (passes text) ⊎ ((first : Fault) × Decides (passes text) first) }
{}

/// A database reaches another, as it is tested, where there is a way: it names one that names one, and so on to the other.
pub fn reaching_is_tested()
    ensures { (nodes : List Node) (name other : List ℕ) → (reaches nodes name other ≡ true) ↔ Reaches (names_it nodes) name other }
{}

/// A name has at most one plan.
pub fn names_have_one_plan()
    ensures { (nodes : List Node) (specs : List LayerSpec) (one other : Tree) (name : List ℕ) → IsPlan nodes specs one name → IsPlan nodes specs other name → one ≡ other }
{}

/// The databases of a configuration are kept apart, each fits its sort, and what one names is there, doesn't lead back to it and
/// doesn't meet. Those of questions and of templates don't meet.
pub fn configurations_are_sound()
    ensures { (text : List ℕ) (conf : Configuration) → IsAnswer text (Ok conf) → is_sound conf ≡ true }
{}
