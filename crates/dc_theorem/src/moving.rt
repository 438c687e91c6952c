//! A law over two runs, on two machines.
ghost use Rattle.std.specs.Prelude.{◌≡◌, Bool, false};
ghost use Rattle.dc_cli.specs.declared.tool.Tool.TheVariants.{GetSelections, SetSelections};
ghost use Rattle.dc_run.specs.OneRound.{HasUsed};
ghost use Rattle.dc_run.specs.World.{World};
ghost use Rattle.dc_run.specs.declared.outcome.End.TheVariants.{Done};
ghost use Rattle.dc_run.specs.declared.outcome.Outcome.{Outcome};
ghost use Rattle.dc_run.specs.declared.settings.Settings.{Settings};
ghost use Rattle.dc_theorem.specs.Moving.{AreMoved, AreNewTo, IsHandedOver, left_by, loaded};

/// What `get-selections` prints on one machine, `set-selections` sets on another. Where both runs did all that they were to do, where the second got all
/// that the first sent and nothing else, and refused no line of it, and where no question and no template of the second machine had the name of a
/// question of the first: each question of the first that can be said has the owners, the kind, the value and the flag `seen` on the second that it has
/// on the first, unless the pair of a backslash and an `n` stands in its name; of each that can't be said there is none on the second; and questions of
/// other names stay as they were there. This is so of the layers as they stand once they are saved.
pub fn answers_move_between_machines()
    ensures { (settings other_settings : Settings) (old new other last : World) (outcome again : Outcome) (verbose : Bool)
        → (says : HasUsed GetSelections settings old new outcome) → outcome.end ≡ Done
        → (sets : HasUsed (SetSelections verbose false false) other_settings other last again) → again.end ≡ Done → again.status ≡ 0
        → IsHandedOver old.links.io new.links.io other.links.io → AreNewTo (loaded says) (loaded sets)
        → AreMoved (loaded says) (loaded sets) (left_by sets) }
{}
