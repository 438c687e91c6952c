//! Laws of sessions, over the definitions alone.
ghost use Rattle.std.specs.Prelude.{◌≡◌, ◌≢◌, List, ℕ, Option, [], ◌∷◌, Some, None, true, map as each};
ghost use Rattle.dc_text.specs.Settled.{settled};
ghost use Rattle.dc_words.specs.Escaped.{escaped};
ghost use Rattle.dc_words.specs.declared.stream.Line.{Line};
ghost use Rattle.dc_words.specs.Stream.{whole_lines};
ghost use Rattle.dc_outside.specs.Counts.{FaultRose};
ghost use Rattle.dc_outside.specs.Disk.{Disk};
ghost use Rattle.dc_outside.specs.declared.files.FilesCall.{FilesCall};
ghost use Rattle.dc_outside.specs.declared.link.Piece.{Piece};
ghost use Rattle.dc_outside.specs.declared.link.Piece.TheVariants.{Got};
ghost use Rattle.dc_frontend.specs.declared.frontend.Frontend.TheVariants.{Noninteractive};
ghost use Rattle.dc_proto.specs.Commands.{heard};
ghost use Rattle.dc_proto.specs.declared.command.Command.{Command};
ghost use Rattle.dc_proto.specs.declared.command.Command.TheVariants.{Get, Go, Set};
ghost use Rattle.dc_proto.specs.declared.command.Heard.TheVariants.{Known};
ghost use Rattle.dc_proto.specs.declared.reply.Reply.{Reply};
ghost use Rattle.dc_store.specs.StoreLaws.{AreSameButAll, KeepsApart};
ghost use Rattle.dc_serve.specs.Execution.{Transition, lines_of, state_after, IsExecution};
ghost use Rattle.dc_serve.specs.LinkRun.{IsLinkRun};
ghost use Rattle.dc_serve.specs.declared.outcome.LinkEnd.TheVariants.{Done};
ghost use Rattle.dc_serve.specs.Answering.{IsRead, AnswersBeforeReads};
ghost use Rattle.dc_serve.specs.declared.machine.Response.{Response};
ghost use Rattle.dc_serve.specs.declared.machine.Response.TheVariants as heeded;
ghost use Rattle.dc_session.specs.Alike.{AreAlike, AreTransitionsSame, AreTransitionsAlike, AreFilesAlike, EndAlike, TellSame};
ghost use Rattle.dc_session.specs.Answers.{nothing, answer, names_on, text_reply};
ghost use Rattle.dc_session.specs.Asking.{finished, first_fixed};
ghost use Rattle.dc_session.specs.Escaping.{set_line, unescaped};
ghost use Rattle.dc_session.specs.Machine.{TakesLine, Steps, Aborts, HasDone, asks_to_save};
ghost use Rattle.dc_session.specs.Quiet.{IsQuietSession};
ghost use Rattle.dc_session.specs.SessionState.{SessionState};
ghost use Rattle.dc_session.specs.Taken.{Takes};
ghost use Rattle.dc_session.specs.declared.stepped.StepError.TheVariants.{Term};
ghost use Rattle.dc_session.specs.declared.stepped.Stepped.{Stepped};
ghost use Rattle.dc_session.specs.declared.stepped.Stepped.TheVariants.{Replied, Save};

/// A line that is refused, by a reply of code 10, 20 or 100, changes neither the store nor what was asked for. It may have read a file. One of
/// code 1 or 30 leaves the store too.
pub fn refused_commands_change_nothing()
    ensures store { (old new : SessionState) (line : Line) (reply : Reply) → Steps old line (Replied reply) new → reply.code ≢ 0
        → (new.store ≡ old.store) × (new.err ≡ old.err) × (new.at ≡ old.at) × (new.owner ≡ old.owner) × (new.policy ≡ old.policy) }
    ensures asking { (old new : SessionState) (line : Line) (reply : Reply) → Steps old line (Replied reply) new → reply.code ≢ 0 → reply.code ≢ 30
        → new.asking ≡ old.asking }
{}

/// A line comes to a save exactly where it is X_SAVE without arguments, and then the session changes nothing.
pub fn saves_are_asked_for_by_one_command()
    ensures asked { (old new : SessionState) (line : Line) (stepped : Stepped) → Steps old line stepped new → asks_to_save old.asking.escape line ≡ true
        → (stepped ≡ Save) × (new ≡ old) }
    ensures alone { (old new : SessionState) (line : Line) → Steps old line Save new → asks_to_save old.asking.escape line ≡ true }
{}

/// A command changes at most the items that its writes are on, in whichever layers they stand.
pub fn other_items_stay()
    ensures { (old new : SessionState) (command : Command) (stepped : Stepped) → (done : HasDone command old stepped new) → AreSameButAll
        (names_on old command done.given) old.store.layers new.store.layers }
{}

/// Where the files tell of the disk and of the calls on them, the lines and the files determine what a session says and leaves that asks
/// nobody, but for standard error. What it tells there is the same, as far as standard error takes it.
pub fn lines_and_files_determine_the_course()
    ensures { (start : SessionState) (disk : Disk) (calls : List FilesCall) (a b : List (Transition SessionState)) → start.files.view ≡
        record { disk = Some disk; calls = Some calls } → start.policy.frontend ≡ Noninteractive
        → IsExecution TakesLine start a → IsExecution TakesLine start b → lines_of a ≡ lines_of b → each (λ transition. transition.new.files) a ≡ each
        (λ transition. transition.new.files) b
        → AreTransitionsSame a b × TellSame start.err (state_after start a).err start.err (state_after start b).err }
{}

/// Where the files tell of the disk and of the calls on them, and the terminal of its talk and its input, the lines, the files and what is
/// typed determine what a session says and leaves, in any manner of asking and in whatever pieces what is typed comes: the replies, the store
/// and what is asked for, what is said on the terminal, and what is left of what is typed. What it tells on standard error is the same, as far
/// as that takes it.
pub fn lines_files_and_answers_determine_the_course()
    ensures { (start other : SessionState) (disk : Disk) (calls : List FilesCall) (a b : List (Transition SessionState)) → start.files.view ≡
        record { disk = Some disk; calls = Some calls } → AreAlike start other
        → IsExecution TakesLine start a → IsExecution TakesLine other b → lines_of a ≡ lines_of b → each (λ transition. transition.new.files) a ≡ each
        (λ transition. transition.new.files) b
        → AreTransitionsAlike a b × TellSame start.err (state_after start a).err other.err (state_after other b).err }
{}

/// Two runs over links of which the same bytes are to come, that both come to the end, say the same and leave what is alike, however the
/// links cut their bytes and the terminals what is typed, from sessions that are alike and the same last code, where the files are the same turn
/// by turn. So the bytes of the link, the files and what is typed determine the replies, the store and what is told on standard error.
pub fn bytes_files_and_answers_determine_the_run()
    ensures { (start other new last : SessionState) (disk : Disk) (calls : List FilesCall) (input : List ℕ)
        (talk new_talk told new_told : Option (List Piece)) (left rest : Option (List ℕ)) (before code number : ℕ)
        → start.files.view ≡ record { disk = Some disk; calls = Some calls } → AreAlike start other
        → (one : IsLinkRun TakesLine Aborts talk new_talk (Some input) left start Done new before code) →
        (two : IsLinkRun TakesLine Aborts told new_told (Some input) rest other Done last before number)
        → AreFilesAlike one.transitions two.transitions
        → EndAlike one.pieces two.pieces code number new last × TellSame start.err new.err other.err last.err }
{}

/// A session over plans that don't tell says nothing on standard error, neither of its lines nor at its end.
pub fn plans_without_debug_tell_nothing()
    ensures lines { (start : SessionState) (transitions : List (Transition SessionState)) → IsQuietSession start → IsExecution TakesLine start transitions →
        (state_after start transitions).err ≡ start.err }
    ensures finish { (state : SessionState) → IsQuietSession state → (finished state).told ≡ [] }
{}

/// Where a user is asked, and no prepared question has a value that can't be changed, GO does what the user answers: all questions that were
/// shown are set to the values that they were given, or the user went back. The reply is `0 ok` or `30 backup`.
pub fn given_answers_are_taken()
    ensures { (old new : SessionState) (did : Stepped) → old.policy.frontend ≢ Noninteractive → first_fixed old ≡ None → (done : HasDone Go old did new)
        → Takes old done.given.asked did new }
{}

/// A run in which a line has come that has a reply, and the next piece is a read, whether more came or it failed, isn't in
/// step: the line is answered first.
pub fn lines_are_answered_first()
    ensures { (start : SessionState) (transitions : List (Transition SessionState)) (bytes : List ℕ) (line : Line) (piece : Piece)
        → IsExecution TakesLine start transitions → whole_lines bytes ≡ line ∷ []
        → ((did : Response) (new : SessionState) → TakesLine start line did new → (code : ℕ) × (text : List ℕ) × (did ≡ heeded.Replied code text))
        → IsRead piece → AnswersBeforeReads transitions (Got bytes ∷ piece ∷ []) → ⊥ }
{}

/// A session leaves the disk as it was: it only reads files.
pub fn reads_leave_the_disk()
    ensures { (start : SessionState) (transitions : List (Transition SessionState)) → IsExecution TakesLine start transitions →
        (state_after start transitions).files.view.disk ≡ start.files.view.disk }
{}

/// `read fault` is told exactly where the files' count of faults rose in that command's read, and at every other reply their counts stay.
pub fn read_faults_are_counted()
    ensures told { (command : Command) (old new : SessionState) (reply : Reply) → HasDone command old (Replied reply) new → reply.code ≡ 100
        → FaultRose old.files.counts new.files.counts }
    ensures stays { (command : Command) (old new : SessionState) (reply : Reply) → HasDone command old (Replied reply) new → reply.code ≢ 100
        → new.files.counts ≡ old.files.counts }
{}

/// A session that comes to nothing at a line for a fault of its terminal counted one there, and at a line that is answered the terminal counts
/// nothing. One that asks nobody meets no such fault.
pub fn terminal_faults_are_counted()
    ensures failed { (old new : SessionState) (line : Line) → Aborts old line Term new → FaultRose old.terminal.link.counts new.terminal.link.counts }
    ensures stays { (start : SessionState) (transitions : List (Transition SessionState)) → IsExecution TakesLine start transitions →
        (state_after start transitions).terminal.link.counts ≡ start.terminal.link.counts }
    ensures nobody { (old new : SessionState) (line : Line) → old.policy.frontend ≡ Noninteractive → Aborts old line Term new → ⊥ }
{}

/// In escape mode a question can be set to any text, and GET tells the text that it was set to, whatever bytes it has, once its escapes are
/// put back. Values are settled, so that a pair of a backslash and an n in it is a newline. The plan of questions keeps the second plans of its
/// backups apart, as each configuration does.
pub fn escaped_values_come_back()
    ensures heard { (question text : List ℕ) → question ≢ [] → text ≢ [] → heard true (set_line question text) ≡ Known (Set question text) }
    ensures told { (old mid : SessionState) (question text : List ℕ) (reply : Reply) → KeepsApart old.at.config → HasDone (Set question text) old
        (Replied reply) mid → reply.code ≡ 0
        → (answer mid (Get question) nothing).stepped ≡ Replied (text_reply mid (settled text)) }
    ensures sent { (text : List ℕ) → unescaped (escaped text) ≡ text }
{}
