//! Laws of how runs end, and of what they leave where they didn't do all.
ghost use Rattle.std.specs.Prelude.{◌≡◌, ◌≢◌, List, [], ℕ, Option};
ghost use Rattle.dc_cli.specs.declared.tool.Tool.{Tool};
ghost use Rattle.dc_cli.specs.declared.tool.Tool.TheVariants.{Communicate, Run};
ghost use Rattle.dc_conf.specs.Configuration.{Configuration};
ghost use Rattle.dc_frontend.specs.declared.frontend.Frontend.{Frontend};
ghost use Rattle.dc_outside.specs.Counts.{Rose};
ghost use Rattle.dc_proto.specs.declared.priority.Priority.{Priority};
ghost use Rattle.dc_run.specs.Headline.{HasRunWords};
ghost use Rattle.dc_run.specs.OneRound.{HasUsed};
ghost use Rattle.dc_run.specs.Saves.{Save};
ghost use Rattle.dc_run.specs.Starting.{begun, loaded_of};
ghost use Rattle.dc_run.specs.World.{World, before_rounds, on_ground};
ghost use Rattle.dc_run.specs.declared.outcome.End.TheVariants.{BadWire, Done, OutOfMemory, TermFault};
ghost use Rattle.dc_run.specs.declared.outcome.Outcome.{Outcome};
ghost use Rattle.dc_run.specs.declared.settings.Settings.{Settings};
ghost use Rattle.dc_theorem.specs.Completeness.{AnswersAll, AreAsked, IsUndisturbed, EndsWell, IsBeforeSaves, EndsEarly, FailsAtMost, KeepUp, MetNoFault, StandsBehindDone};

/// A run ends well at which nothing outside failed: its words name a tool, its configuration, the loaded databases and what comes through a pipe can be
/// read, no count of faults rose but that of standard error, and fewer than 2^40 bytes came; and no line of a wire was unreadable, which the run would tell. It
/// did all that it was to do, or memory ran out; only a pattern that isn't plain may be refused.
pub fn a_clean_run_ends_well()
    ensures { (words : List (List ℕ)) (used : Tool) (conf : Configuration) (settings : Settings) (old new : World) (outcome : Outcome) (saves : List Save)
        → IsUndisturbed words used conf settings old new → HasRunWords words settings old new outcome saves
        → ((line : ℕ) → outcome.end ≢ BadWire line) → EndsWell used conf outcome.end }
{}

/// Where no failure of the files was counted and a run of `communicate` or `run` did all that it was to do, each line has the reply of its row, which
/// is sent whole and in its turn, up to one that stops the session.
pub fn each_line_has_its_reply()
    ensures communicate { (owner : List ℕ) (settings : Settings) (old new : World) (outcome : Outcome)
        → (run : HasUsed (Communicate owner) settings old new outcome) → outcome.end ≡ Done
        → ¬ Rose old.stock.files.counts.faults new.stock.files.counts.faults
        → AnswersAll (begun (Communicate owner) (before_rounds (on_ground old run.mid)) run.roots settings) old.links.io new.links.io }
    ensures run { (owner : List ℕ) (frontend : Option Frontend) (priority : Option Priority) (command : List (List ℕ)) (settings : Settings)
        (old new : World) (outcome : Outcome) → (run : HasUsed (Run owner frontend priority command) settings old new outcome) → outcome.end ≡ Done
        → ¬ Rose old.stock.files.counts.faults new.stock.files.counts.faults
        → AnswersAll (begun (Run owner frontend priority command) (before_rounds (on_ground old run.mid)) run.roots settings)
        old.links.child new.links.child }
{}

/// A run that ends for want of memory leaves the disk as it was, or as the saves left it that a program asked for and that were done before, unless the
/// files themselves refused a call for that. One that began no save leaves it as it was. The ends that come before a save begin none, and where the
/// terminal failed, or a line of the wire was unreadable, there were those alone that the program asked for.
pub fn want_of_memory_breaks_no_save()
    ensures memory { (words : List (List ℕ)) (settings : Settings) (old new : World) (outcome : Outcome) (saves : List Save)
        → HasRunWords words settings old new outcome saves → outcome.end ≡ OutOfMemory
        → ¬ Rose old.stock.files.counts.refusals new.stock.files.counts.refusals
        → StandsBehindDone saves old.stock.files.view.disk new.stock.files.view.disk }
    ensures unsaved { (words : List (List ℕ)) (settings : Settings) (old new : World) (outcome : Outcome)
        → HasRunWords words settings old new outcome [] → new.stock.files.view.disk ≡ old.stock.files.view.disk }
    ensures before { (words : List (List ℕ)) (settings : Settings) (old new : World) (outcome : Outcome) (saves : List Save)
        → HasRunWords words settings old new outcome saves → IsBeforeSaves outcome.end → saves ≡ [] }
    ensures asked { (words : List (List ℕ)) (settings : Settings) (old new : World) (outcome : Outcome) (saves : List Save)
        → HasRunWords words settings old new outcome saves → outcome.end ≡ TermFault → AreAsked saves }
    ensures wired { (words : List (List ℕ)) (settings : Settings) (old new : World) (outcome : Outcome) (saves : List Save) (line : ℕ)
        → HasRunWords words settings old new outcome saves → outcome.end ≡ BadWire line → AreAsked saves }
{}

/// Where the files refused a call for want of memory, the run ends for that.
pub fn a_refusal_of_memory_ends_the_run()
    ensures { (words : List (List ℕ)) (settings : Settings) (old new : World) (outcome : Outcome) (saves : List Save)
        → HasRunWords words settings old new outcome saves → outcome.end ≢ OutOfMemory
        → new.stock.files.counts.refusals ≡ old.stock.files.counts.refusals }
{}

/// Where a run did all that it was to do, no call on a link failed or was refused behind its loads, and in these at most the read of what comes through a
/// pipe that was left out; and neither the start of its program nor the wait for it failed. Each call of the files that failed was one of a load of a
/// database that isn't required, or the read of a command with code 100.
pub fn a_run_that_did_all_met_no_fault()
    ensures files { (used : Tool) (settings : Settings) (old new : World) (outcome : Outcome)
        → (run : HasUsed used settings old new outcome) → outcome.end ≡ Done
        → FailsAtMost used (loaded_of used run.roots.conf) (begun used (before_rounds (on_ground old run.mid)) run.roots settings) old new }
    ensures behind { (used : Tool) (settings : Settings) (old new : World) (outcome : Outcome)
        → (run : HasUsed used settings old new outcome) → outcome.end ≡ Done → new.links.io.counts ≡ run.mid.sources.link.counts }
    ensures links { (words : List (List ℕ)) (settings : Settings) (old new : World) (outcome : Outcome) (saves : List Save)
        → HasRunWords words settings old new outcome saves → outcome.end ≡ Done → MetNoFault old.links new.links }
{}

/// The layers aren't behind the replies: where memory ran out, the terminal failed, a line of the wire was unreadable or a save failed, they are the machine's before the first line that has no
/// reply, but for the items on which that line's row writes, or those behind the save that it asks for. Where there is no such line, they are those behind
/// all lines, but for the items of the questions that were asked.
pub fn tables_are_not_behind_the_replies()
    ensures communicate { (owner : List ℕ) (settings : Settings) (old new : World) (outcome : Outcome)
        → (run : HasUsed (Communicate owner) settings old new outcome) → EndsEarly outcome.end
        → KeepUp (begun (Communicate owner) (before_rounds (on_ground old run.mid)) run.roots settings) old.links.io new.links.io new.stock.used }
    ensures run { (owner : List ℕ) (frontend : Option Frontend) (priority : Option Priority) (command : List (List ℕ)) (settings : Settings)
        (old new : World) (outcome : Outcome) → (run : HasUsed (Run owner frontend priority command) settings old new outcome) → EndsEarly outcome.end
        → KeepUp (begun (Run owner frontend priority command) (before_rounds (on_ground old run.mid)) run.roots settings)
        old.links.child new.links.child new.stock.used }
{}
