//! The laws.
ghost use Rattle.std.specs.Prelude.{◌≡◌, Bool, List, ℕ, Option, Some};
ghost use Rattle.dc_frontend.specs.declared.frontend.Frontend.{Frontend};
ghost use Rattle.dc_outside.specs.Disk.{Disk};
ghost use Rattle.dc_outside.specs.declared.files.FilesCall.{FilesCall};
ghost use Rattle.dc_outside.specs.declared.link.Piece.{Piece};
ghost use Rattle.dc_proto.specs.declared.priority.Priority.{Priority};
ghost use Rattle.dc_run.specs.SavingSession.{TakesSaving, BreaksSaving};
ghost use Rattle.dc_run.specs.World.{World};
ghost use Rattle.dc_run.specs.declared.outcome.Outcome.{Outcome};
ghost use Rattle.dc_run.specs.declared.settings.Settings.{Settings};
ghost use Rattle.dc_serve.specs.LinkRun.{IsLinkRun};
ghost use Rattle.dc_serve.specs.declared.outcome.LinkEnd.TheVariants.{Done};
ghost use Rattle.dc_session.specs.Alike.{AreAlike, EndAlike, TellSame};
ghost use Rattle.dc_session.specs.SessionState.{SessionState};
ghost use Rattle.dc_cli.specs.Tools.{Names};
ghost use Rattle.dc_cli.specs.declared.tool.CopyWords.{CopyWords};
ghost use Rattle.dc_cli.specs.declared.tool.PlacedWord.{PlacedWord};
ghost use Rattle.dc_cli.specs.declared.tool.Shown.{Shown};
ghost use Rattle.dc_cli.specs.declared.tool.Tool.TheVariants.{Answer, Communicate, CopyDb, GetSelections, LoadTemplate, Run, SetSelections, Show};
ghost use Rattle.dc_theorem.specs.Runs.{NoneFailed, IsClean, AreTypedAlike, ComeAlike, CommunicateAlike, CopyAlike, ReadsLink, RunAlike, LoadAlike, ShowAlike};

/// The bytes of the link, the disk and what is typed determine a session with its saves in which no call of the files failed: two from states that
/// are alike and follow the same code, and both come to the end, send the same replies, leave what is alike and tell the same on standard error, as far as
/// that takes it, however the links cut their bytes and the terminals what is typed.
pub fn what_comes_in_determines_the_session()
    ensures { (start other new last : SessionState) (disk : Disk) (calls : List FilesCall) (input : List ℕ)
        (talk new_talk other_talk last_talk : Option (List Piece)) (left other_left : Option (List ℕ)) (before code number : ℕ)
        → start.files.view ≡ record { disk = Some disk; calls = Some calls } → AreAlike start other → NoneFailed start.files.counts new.files.counts
        → NoneFailed other.files.counts last.files.counts
        → (one : IsLinkRun TakesSaving BreaksSaving talk new_talk (Some input) left start Done new before code)
        → (two : IsLinkRun TakesSaving BreaksSaving other_talk last_talk (Some input) other_left other Done last before number)
        → EndAlike one.pieces two.pieces code number new last × TellSame start.err new.err other.err last.err }
{}

/// What comes in determines what a run says and leaves, however its bytes are cut. Two runs with the same words and settings, over files
/// that tell the same, that both did all that they were to do, and in which no call of the files failed: where the same bytes came on the
/// link, and the same was typed on the terminal, in whatever pieces, they sent the same replies or printed the same, said the same on the terminal and
/// on standard error, hold the same layers, and leave the same disk by the same calls. Two copies of a database that comes through a pipe must have met no
/// fault of their link either.
///
/// It says nothing of runs that end otherwise, or in which a call of the files failed, and nothing of the status of `run` and `answer`, which the program
/// gives that it started.
pub fn what_comes_in_determines_the_run()
    ensures communicate { (words : List (List ℕ)) (owner : List ℕ) (settings : Settings) (disk : Disk) (calls : List FilesCall) (one new other last : World)
        (outcome again : Outcome) (input : List ℕ) → Names words (Communicate owner)
        → IsClean words settings disk calls one new outcome → IsClean words settings disk calls other last again → one.links.io.input ≡ Some input
        → other.links.io.input ≡ Some input
        → CommunicateAlike one new outcome other last again }
    ensures run { (words : List (List ℕ)) (owner : List ℕ) (frontend : Option Frontend) (priority : Option Priority) (command : List (List ℕ))
        (settings : Settings) (disk : Disk) (calls : List FilesCall) (one new other last : World) (outcome again : Outcome) (input : List ℕ)
        → Names words (Run owner frontend priority command) → IsClean words settings disk calls one new outcome
        → IsClean words settings disk calls other last again
        → one.links.child.input ≡ Some input → other.links.child.input ≡ Some input → AreTypedAlike one.links.io other.links.io
        → RunAlike one new outcome other last again }
    ensures answer { (words : List (List ℕ)) (command : List (List ℕ)) (settings : Settings) (disk : Disk) (calls : List FilesCall)
        (one new other last : World) (outcome again : Outcome) (input : List ℕ) → Names words (Answer command)
        → IsClean words settings disk calls one new outcome → IsClean words settings disk calls other last again
        → one.links.child.input ≡ Some input → other.links.child.input ≡ Some input → AreTypedAlike one.links.io other.links.io
        → RunAlike one new outcome other last again }
    ensures loadtemplate { (words : List (List ℕ)) (owner : List ℕ) (paths : List (List ℕ)) (settings : Settings) (disk : Disk) (calls : List FilesCall)
        (one new other last : World) (outcome again : Outcome) → Names words (LoadTemplate owner paths)
        → IsClean words settings disk calls one new outcome → IsClean words settings disk calls other last again → LoadAlike one new outcome other last again }
    ensures show { (words : List (List ℕ)) (database : Option PlacedWord) (shown : Shown) (settings : Settings) (disk : Disk) (calls : List FilesCall)
        (one new other last : World) (outcome again : Outcome) → Names words (Show database shown)
        → IsClean words settings disk calls one new outcome → IsClean words settings disk calls other last again → ShowAlike one new outcome other last again }
    ensures get_selections { (words : List (List ℕ)) (settings : Settings) (disk : Disk) (calls : List FilesCall)
        (one new other last : World) (outcome again : Outcome) → Names words GetSelections
        → IsClean words settings disk calls one new outcome → IsClean words settings disk calls other last again → ShowAlike one new outcome other last again }
    ensures copydb { (words : List (List ℕ)) (copy : CopyWords) (settings : Settings) (disk : Disk) (calls : List FilesCall)
        (one new other last : World) (outcome again : Outcome) → Names words (CopyDb copy)
        → IsClean words settings disk calls one new outcome → IsClean words settings disk calls other last again
        → (ReadsLink (CopyDb copy) disk settings.conf_path → ComeAlike one.links.io new.links.io other.links.io last.links.io)
        → CopyAlike one new outcome other last again }
    ensures set_selections { (words : List (List ℕ)) (verbose check unseen : Bool) (settings : Settings) (disk : Disk) (calls : List FilesCall)
        (one new other last : World) (outcome again : Outcome) (input : List ℕ) → Names words (SetSelections verbose check unseen)
        → IsClean words settings disk calls one new outcome → IsClean words settings disk calls other last again → one.links.io.input ≡ Some input
        → other.links.io.input ≡ Some input
        → LoadAlike one new outcome other last again }
{}
