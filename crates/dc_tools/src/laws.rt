//! Laws of the definitions, which show that they mean what they say.
ghost use Rattle.std.specs.Prelude.{◌≡◌, ℕ, List, Option, Some, true, false, codes, map as each};
ghost use Rattle.std.specs.List.{AllByRecursion};
ghost use Rattle.dc_conf.specs.Plans.{are_disjoint};
ghost use Rattle.dc_item.specs.Item.{ItemParts, with_field};
ghost use Rattle.dc_question.specs.Readings.{kind_by};
ghost use Rattle.dc_template.specs.declared.kinds.Kind.TheVariants.{Password};
ghost use Rattle.dc_store.specs.Plans.{StoreState, look};
ghost use Rattle.dc_store.specs.StoreLaws.{KeepsApart};
ghost use Rattle.dc_tools.specs.Copying.{Copying, IsCopied, IsOpen, chosen};
ghost use Rattle.dc_tools.specs.Showing.{item_line, show_text_of};
ghost use Rattle.dc_tools.specs.declared.report.CopyReport.{CopyReport};
ghost use Rattle.dc_tools.specs.ToolExamples.{Lines, Databases, Chosen};

/// What is written of some questions and databases, and where some patterns are found, as it is worked out.
pub fn answers_are_worked_out()
    ensures lines { Lines }
    ensures databases { Databases }
    ensures chosen { Chosen }
{}

/// The line of a password is the same whatever its value is.
pub fn lines_hide_passwords()
    ensures { (lang name value : List ℕ) (item : ItemParts) (template : Option ItemParts) → kind_by template ≡ Some Password
        → item_line lang name (with_field item (codes "value") value) template ≡ item_line lang name item template }
{}

/// A destination that takes each item refuses none. Where no item is refused, each that was copied is seen in the destination, and is shown
/// as it is in the source. The destination writes no backup over itself, and no templates stand in it.
pub fn copies_are_shown_as_their_sources()
    ensures none { (copy : Copying) (old new : StoreState) (report : CopyReport) → IsCopied copy old new report
        → IsOpen old.layers copy.dest → report.refused ≡ false }
    ensures there { (copy : Copying) (old new : StoreState) (report : CopyReport) → IsCopied copy old new report → report.refused ≡ false
        → KeepsApart copy.dest → AllByRecursion (λ e. look new.layers copy.dest e.0 ≡ Some e.1) (chosen old.layers copy) }
    ensures shown { (copy : Copying) (old new : StoreState) (report : CopyReport) (lang : List ℕ) → IsCopied copy old new report → report.refused ≡ false
        → KeepsApart copy.dest → are_disjoint copy.templates copy.dest ≡ true → let names = each (λ e. e.0) (chosen old.layers copy) in
        show_text_of new.layers (record { config = copy.dest; templates = copy.templates; lang = lang }) names
        ≡ show_text_of old.layers (record { config = copy.source; templates = copy.templates; lang = lang }) names }
{}
