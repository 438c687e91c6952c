//! Laws of the wire.
ghost use Rattle.std.specs.Prelude.{◌≡◌, ℕ, Bool, true, List, [], ◌∷◌, Option, Some, Result, Ok, Err};
ghost use Rattle.std.specs.List.{list_all};
ghost use Rattle.dc_text.specs.Lines.{text_of};
ghost use Rattle.dc_words.specs.Stream.{whole_lines};
ghost use Rattle.dc_words.specs.declared.stream.Line.{Line};
ghost use Rattle.dc_frontend.specs.declared.shown.Shown.{Shown};
ghost use Rattle.dc_pass.specs.declared.calls.WireCall.{WireCall};
ghost use Rattle.dc_pass.specs.declared.calls.WireCall.TheVariants.{Ask};
ghost use Rattle.dc_pass.specs.declared.calls.WireError.TheVariants.{Bad};
ghost use Rattle.dc_pass.specs.declared.pass.PassError.{PassError};
ghost use Rattle.dc_pass.specs.declared.pass.PassError.TheVariants.{Bad as Unreadable};
ghost use Rattle.dc_teletype.specs.Answered.{HaveAnswers};
ghost use Rattle.dc_teletype.specs.TerminalLines.{TerminalState, EndsWell};
ghost use Rattle.dc_teletype.specs.Typed.{AreTerminalsAlike};
ghost use Rattle.dc_teletype.specs.declared.teletype.Answer.{Answer};
ghost use Rattle.dc_teletype.specs.declared.teletype.Asked.{Asked};
ghost use Rattle.dc_teletype.specs.declared.teletype.Asked.TheVariants.{Answers, Back};
ghost use Rattle.dc_pass.specs.Passing.{is_sent, sent_questions, asked_by, Asks, WireCounts};
ghost use Rattle.dc_pass.specs.Wire.{fits, request_lines, reply_lines, sent_reply, answer_all, is_call};
ghost use Rattle.dc_pass.specs.Reading.{calls, replies, IsWhole, Takes, AreTaken};
ghost use Rattle.dc_pass.specs.WireExamples.{Examples};

/// A request and its replies are these lines.
pub fn lines_are_worked_out()
    ensures { Examples }
{}

/// A reader that stands between requests takes the lines of a request, as they are printed, as that request: at least one question is
/// asked, each has a label for each choice, and no line is too long.
pub fn requests_are_read_again()
    ensures { (title : List ℕ) (backup : Bool) (shown : List Shown) → is_call (Ask title backup shown) ≡ true
        → list_all fits (request_lines title backup shown) ≡ true
        → AreTaken calls [] (whole_lines (text_of (request_lines title backup shown))) (Ask title backup shown ∷ []) [] }
{}

/// A line is taken in one way, unless memory runs out.
pub fn lines_are_taken_in_one_way()
    ensures one { (old new other : List Line) (line : Line) (a b : Option WireCall)
        → Takes calls old line (Ok a) new → Takes calls old line (Ok b) other → (a ≡ b) × (new ≡ other) }
    ensures not_both { (old new other : List Line) (line : Line) (a : Option WireCall)
        → Takes calls old line (Ok a) new → Takes calls old line (Err Bad) other → ⊥ }
{}

/// What a dialogue on a terminal can answer is read, of what is printed of it, as that reply: an answer whose line would be too long as
/// though the value were kept. Where all questions were sent, these are the answers that the session gets.
pub fn answers_are_read_again()
    ensures answers { (backup : Bool) (shown : List Shown) (answers : List Answer) → HaveAnswers backup shown answers
        → IsWhole (replies backup shown) (whole_lines (text_of (reply_lines (sent_reply (Answers answers))))) (sent_reply (Answers answers)) }
    ensures back { (shown : List Shown) → IsWhole (replies true shown) (whole_lines (text_of (reply_lines (sent_reply Back)))) Back }
    ensures sent { (shown : List Shown) (answers : List Answer) → list_all is_sent shown ≡ true → answer_all shown answers ≡ true
        → (sent_questions shown ≡ shown) × (asked_by shown (Some (Answers answers)) ≡ Answers answers) }
{}

/// What comes on the wire determines what asking comes to, in whatever pieces it comes: the answers, how many lines came, what was sent, and what
/// is left of what came; or which line is unreadable.
pub fn what_comes_determines_the_answers()
    ensures answers { (backup : Bool) (title : List ℕ) (shown : List Shown) (before now number : ℕ) (old new other last : TerminalState)
        (asked again : Asked) → AreTerminalsAlike old other → Asks backup title shown before old new (Ok asked) now
        → Asks backup title shown before other last (Ok again) number → (asked ≡ again) × (now ≡ number) × AreTerminalsAlike new last }
    ensures unreadable { (backup : Bool) (title : List ℕ) (shown : List Shown) (before now number line place : ℕ) (old new other last : TerminalState)
        → AreTerminalsAlike old other → Asks backup title shown before old new (Err (Unreadable line)) now
        → Asks backup title shown before other last (Err (Unreadable place)) number → line ≡ place }
    ensures not_both { (backup : Bool) (title : List ℕ) (shown : List Shown) (before now number line : ℕ) (old new other last : TerminalState)
        (asked : Asked) → AreTerminalsAlike old other → Asks backup title shown before old new (Ok asked) now
        → Asks backup title shown before other last (Err (Unreadable line)) number → ⊥ }
{}

/// A request that is answered, or whose reply has an unreadable line, met no fault of the link, and one that the link failed counted one there. The
/// input of the link has ended only where it had, or none of it is left.
pub fn faults_of_the_wire_are_counted()
    ensures counts { (backup : Bool) (title : List ℕ) (shown : List Shown) (before now : ℕ) (old new : TerminalState) (result : Result Asked PassError)
        → Asks backup title shown before old new result now → WireCounts result old.link.counts new.link.counts }
    ensures program { (backup : Bool) (title : List ℕ) (shown : List Shown) (before now : ℕ) (old new : TerminalState) (result : Result Asked PassError)
        → Asks backup title shown before old new result now → new.link.program ≡ old.link.program }
    ensures end { (backup : Bool) (title : List ℕ) (shown : List Shown) (before now : ℕ) (old new : TerminalState) (result : Result Asked PassError)
        → Asks backup title shown before old new result now → EndsWell old.ahead new.ahead new.link.input }
{}
