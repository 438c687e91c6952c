// Where questions stand.
use dc_conf::plans::Plan;
use dc_text::Text;
use std::marker::Model;

/// The plans of questions and of templates, and the user's language.
#[derive(Drop)]
pub struct QuestionContext<'q> {
    pub config: &'q Plan,
    pub templates: &'q Plan,
    pub lang: &'q Text,
}

impl<'q> Model for QuestionContext<'q> {
    ghost use Rattle.std.specs.Coded.{codes};
    ghost use Rattle.dc_conf.specs.Trees.{shape};
    ghost use Rattle.dc_store.specs.TreeCodes.{tree_code};
    ghost use Rattle.dc_question.specs.Questions.{QuestionContext as SettingOf};

    ghost Value = { SettingOf };

    ghost coded = { Prim.hlevel (codes, tree_code) };

    ghost view = { λ s. record { config = shape s.config.now; templates = shape s.templates.now; lang = s.lang.now } };
}
