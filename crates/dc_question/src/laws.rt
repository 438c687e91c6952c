//! Laws of the readings.
ghost use Rattle.std.specs.Prelude.{◌≡◌, List, ℕ, Bool, [], None, Ok, Err, true, false, length, unwrap_or, codes, map as each};
ghost use Rattle.std.specs.List.{All, list_any};
ghost use Rattle.std.specs.FinMap as map;
ghost use Rattle.dc_text.specs.Maps.{AreDistinct};
ghost use Rattle.dc_item.specs.Item.{ItemParts};
ghost use Rattle.dc_conf.specs.Plans.{are_disjoint};
ghost use Rattle.dc_layer.specs.State.{LayerState};
ghost use Rattle.dc_template.specs.Stanzas.{Stanza};
ghost use Rattle.dc_template.specs.declared.kinds.Kind.{Kind};
ghost use Rattle.dc_store.specs.Plans.{StoreState, look, look_below, is_owned};
ghost use Rattle.dc_store.specs.StoreLaws.{KeepsApart};
ghost use Rattle.dc_store.specs.Batches.{Write, AllDistinct, is_refused, all_done, first_refused};
ghost use Rattle.dc_question.specs.Changes.{batch_for, value_write, values_set};
ghost use Rattle.dc_question.specs.Ownership.{register_batch, leave_batch, load_batch, purged};
ghost use Rattle.dc_question.specs.Preseeding.{preseed_batch, preseeded};
ghost use Rattle.dc_question.specs.Questions.{QuestionContext, exists, can_change};
ghost use Rattle.dc_question.specs.declared.errors.QuestionError.{QuestionError};
ghost use Rattle.dc_question.specs.declared.errors.QuestionError.TheVariants.{CantChange};
ghost use Rattle.dc_question.specs.Readings.{choices_by, localised};

/// A question has as many labels as choices.
pub fn labels_pair_with_choices()
    ensures { (lang : List ℕ) (question template : ItemParts)
        → length (choices_by lang question template).labels ≡ length (choices_by lang question template).plain }
{}

/// A field `type` in a language is never read for the type.
pub fn types_are_in_no_language()
    ensures { (lang : List ℕ) (template : ItemParts) → localised lang template (codes "type") ≡ map.get template.fields (codes "type") }
{}

/// The writes of a row are on different items, where questions and templates share no layer.
pub fn writes_of_a_row_are_distinct()
    ensures register { (layers : List LayerState) (at : QuestionContext) (template name owner : List ℕ)
        → are_disjoint at.config at.templates ≡ true → AllDistinct (register_batch layers at template name owner) }
    ensures leave { (layers : List LayerState) (at : QuestionContext) (owner : List ℕ) (names : List (List ℕ))
        → are_disjoint at.config at.templates ≡ true → AreDistinct names → AllDistinct (leave_batch layers at owner names) }
    ensures load { (layers : List LayerState) (at : QuestionContext) (owner : List ℕ) (templates : List Stanza)
        → are_disjoint at.config at.templates ≡ true → AreDistinct (each (λ t. t.name) templates) → AllDistinct (load_batch layers at owner templates) }
    ensures preseed { (layers : List LayerState) (at : QuestionContext) (owner name : List ℕ) (kind : Kind) (value : List ℕ) (unseen : Bool)
        → are_disjoint at.config at.templates ≡ true → AllDistinct (preseed_batch layers at owner name kind value unseen) }
{}

/// A row is done as a whole exactly where none of its writes is refused, and else none of it is.
pub fn refused_rows_change_nothing()
    ensures taken { (store new : StoreState) (names : List (List ℕ)) (batch : List Write)
        → batch_for store names batch ≡ Ok new → (list_any (is_refused store.layers) batch ≡ false) × (new ≡ all_done store batch) }
    ensures left { (store : StoreState) (names : List (List ℕ)) (batch : List Write)
        → list_any (is_refused store.layers) batch ≡ false → batch_for store names batch ≡ Ok (all_done store batch) }
    ensures refused { (store : StoreState) (names : List (List ℕ)) (batch : List Write) (error : QuestionError)
        → batch_for store names batch ≡ Err error
        → (list_any (is_refused store.layers) batch ≡ true) × (error ≡ CantChange (unwrap_or (first_refused store.layers names batch) [])) }
    ensures told { (store : StoreState) (names : List (List ℕ)) (batch : List Write)
        → list_any (is_refused store.layers) batch ≡ true
        → batch_for store names batch ≡ Err (CantChange (unwrap_or (first_refused store.layers names batch) [])) }
{}

/// Once an owner's questions are purged, no question that is seen has it, unless one that another had hidden has come into sight:
/// where questions and templates share no layer, and where no place that is asked stands under a backup's second plan, which no
/// configuration does.
pub fn purged_questions_lose_the_owner()
    ensures { (store new : StoreState) (at : QuestionContext) (owner name : List ℕ)
        → are_disjoint at.config at.templates ≡ true → KeepsApart at.config → purged store at owner ≡ Ok new
        → is_owned owner (look new.layers at.config name) ≡ true → is_owned owner (look_below store.layers at.config name) ≡ true }
{}

/// A question that can be changed is there, and where each of some questions can be changed, all of them get their values.
pub fn changeable_questions_are_set()
    ensures there { (layers : List LayerState) (at : QuestionContext) (name : List ℕ) → can_change layers at name ≡ true → exists layers at name ≡ true }
    ensures set { (store : StoreState) (at : QuestionContext) (answers : List (List ℕ × List ℕ)) → All (λ a. can_change store.layers at a.0 ≡ true) answers
        → values_set store at answers ≡ Ok (all_done store (each (value_write store.layers at) answers)) }
{}

/// Where a question isn't answered before it is asked, the refusal names the question.
pub fn refused_answers_name_the_question()
    ensures { (store : StoreState) (at : QuestionContext) (owner name : List ℕ) (kind : Kind) (value : List ℕ) (unseen : Bool) (error : QuestionError)
        → preseeded store at owner name kind value unseen ≡ Err error → error ≡ CantChange name }
{}
