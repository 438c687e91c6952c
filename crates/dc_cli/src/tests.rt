// Words of tools: where they are refused, and what they say.
use crate::{PlacedWord, Tool, ToolError, read_tool};
use dc_text::{List, Text};
use std::alloc::Global;
use std::process::Abort;

// The words of a line, between which single spaces stand.
fn words(rt: &impl Abort, alloc: Global, line: &str) -> List<Text> {
    let mut words = List::new(alloc);
    for word in line.as_bytes().split(|byte| *byte == b' ') {
        words
            .push(Text::from_bytes(alloc, word).expect(rt, "memory"))
            .expect(rt, "memory");
    }
    words
}

// The place at which the words of a line are refused, if they are.
fn refused(rt: &impl Abort, alloc: Global, line: &str) -> Option<usize> {
    match read_tool(alloc, &words(rt, alloc, line)) {
        Ok(_) => None,
        Err(ToolError::Refused { word }) => Some(word),
        Err(ToolError::OutOfMemory) => panic!(rt; "memory"),
    }
}

#[test]
fn words_of_show_are_taken_or_refused_at_their_place(rt: HostRuntime) {
    for (line, place) in [
        ("show p", None),
        ("show p q/r", None),
        ("show --db=x p q", None),
        ("show --db= p", None),
        ("show --listowners", None),
        ("show --listowners --db=x", None),
        ("show --db=x --listowners", None),
        ("show --listdbs", None),
        ("show", Some(1)),
        ("show a,b", Some(1)),
        ("show --x", Some(1)),
        ("show --db=x", Some(2)),
        ("show p --db=x", Some(2)),
        ("show p --listowners", Some(2)),
        ("show --db=x --db=y", Some(2)),
        ("show --db=x --listdbs", Some(2)),
        ("show --listowners p", Some(2)),
        ("show --listdbs p", Some(2)),
        ("show --listdbs --db=x", Some(2)),
        ("show --listowners --db=x p", Some(3)),
        ("shows p", Some(0)),
    ] {
        assert_eq!(rt; refused(&rt, rt.alloc(), line), place, "at {line}");
    }
}

#[test]
fn words_of_copydb_are_taken_or_refused_at_their_place(rt: HostRuntime) {
    for (line, place) in [
        ("copydb a b", None),
        ("copydb  b", None),
        ("copydb --pattern=x a --owner-pattern= -b", None),
        ("copydb a b --config=nAME:c --config=Driver:File", None),
        ("copydb a b --config=Name:", None),
        ("copydb", Some(1)),
        ("copydb a", Some(2)),
        ("copydb a b c", Some(3)),
        ("copydb a --x b", Some(2)),
        ("copydb a -- b", Some(2)),
        ("copydb --pattern=x --pattern=y a b", Some(2)),
        ("copydb --pattern=x a", Some(3)),
        ("copydb a --owner-pattern= --owner-pattern= b", Some(3)),
        ("copydb a b --config=Driver:File", Some(3)),
        ("copydb a b --config=Name", Some(3)),
        ("copydb a b --config=Name:c --config=x", Some(4)),
    ] {
        assert_eq!(rt; refused(&rt, rt.alloc(), line), place, "at {line}");
    }
}

// Whether this word stands at this place.
fn is(placed: &PlacedWord, word: &[u8], place: usize) -> bool {
    placed.word.bytes() == word && placed.place == place
}

#[test]
fn what_copydb_copies_is_said_with_its_place(rt: HostRuntime) {
    let alloc = rt.alloc();
    let line = "copydb --pattern=^p/ a --config=name:c:d b --config=Driver:File";
    match read_tool(alloc, &words(&rt, alloc, line)) {
        Ok(Tool::CopyDb(copy)) => {
            assert!(rt; is(&copy.source, b"a", 2));
            assert!(rt; is(&copy.dest, b"b", 4));
            assert!(rt; copy.by_name.is_some_and(|pattern| is(&pattern, b"^p/", 1)));
            assert!(rt; copy.by_owner.is_none());
            for (place, (field, value)) in [("name", "c:d"), ("Driver", "File")]
                .iter()
                .enumerate()
            {
                let line = copy.config.get(place).expect(&rt, "a line");
                assert_eq!(rt; line.field.bytes(), field.as_bytes());
                assert_eq!(rt; line.value.bytes(), value.as_bytes());
            }
        }
        _ => panic!(rt; "refused"),
    }
}

#[test]
fn words_of_set_selections_are_taken_or_refused_at_their_place(rt: HostRuntime) {
    for (line, place) in [
        ("set-selections", None),
        ("set-selections -v", None),
        ("set-selections --verbose", None),
        ("set-selections -c", None),
        ("set-selections --checkonly", None),
        ("set-selections -u", None),
        ("set-selections --unseen", None),
        ("set-selections -v -c -u", None),
        ("set-selections -u -c -v", None),
        ("set-selections -c --unseen --verbose", None),
        ("set-selections --unseen --verbose --checkonly", None),
        ("set-selections ", Some(1)),
        ("set-selections -", Some(1)),
        ("set-selections --", Some(1)),
        ("set-selections -x", Some(1)),
        ("set-selections -vc", Some(1)),
        ("set-selections --check", Some(1)),
        ("set-selections --Verbose", Some(1)),
        ("set-selections --unseen=true", Some(1)),
        ("set-selections file", Some(1)),
        ("set-selections -v -v", Some(2)),
        ("set-selections -v --verbose", Some(2)),
        ("set-selections --checkonly -c", Some(2)),
        ("set-selections --unseen --unseen -v", Some(2)),
        ("set-selections -v file", Some(2)),
        ("set-selections -v -u --verbose", Some(3)),
        ("set-selections -v -c --checkonly", Some(3)),
        ("set-selections -u -c -u", Some(3)),
        ("set-selections -v -c -u file", Some(4)),
        ("set-selections -v -c -u -v", Some(4)),
        ("set-selection -v", Some(0)),
    ] {
        assert_eq!(rt; refused(&rt, rt.alloc(), line), place, "at {line}");
    }
}

#[test]
fn options_of_set_selections_say_what_they_spell(rt: HostRuntime) {
    let alloc = rt.alloc();
    for (line, wanted) in [
        ("set-selections", (false, false, false)),
        ("set-selections -v", (true, false, false)),
        ("set-selections --verbose", (true, false, false)),
        ("set-selections -c", (false, true, false)),
        ("set-selections --checkonly", (false, true, false)),
        ("set-selections -u", (false, false, true)),
        ("set-selections --unseen", (false, false, true)),
        ("set-selections --unseen -v", (true, false, true)),
        ("set-selections -u --checkonly -v", (true, true, true)),
    ] {
        match read_tool(alloc, &words(&rt, alloc, line)) {
            Ok(
                Tool::SetSelections {
                    verbose,
                    check,
                    unseen,
                },
            ) => {
                assert_eq!(rt; verbose, wanted.0, "at {line}");
                assert_eq!(rt; check, wanted.1, "at {line}");
                assert_eq!(rt; unseen, wanted.2, "at {line}");
            }
            _ => panic!(rt; "refused"),
        }
    }
}

#[test]
fn get_selections_is_taken_alone(rt: HostRuntime) {
    for (line, place) in [
        ("get-selections", None),
        ("get-selections ", Some(1)),
        ("get-selections -", Some(1)),
        ("get-selections --installer", Some(1)),
        ("get-selections get-selections", Some(1)),
        ("get-selections p", Some(1)),
        ("get-selections p q", Some(1)),
        ("get-selection", Some(0)),
        ("get-selections2", Some(0)),
        ("Get-selections", Some(0)),
        ("get", Some(0)),
        ("", Some(0)),
    ] {
        assert_eq!(rt; refused(&rt, rt.alloc(), line), place, "at {line}");
    }
    let none = List::new(rt.alloc());
    match read_tool(rt.alloc(), &none) {
        Err(ToolError::Refused { word }) => assert_eq!(rt; word, 0),
        _ => panic!(rt; "no words name a tool"),
    }
    match read_tool(rt.alloc(), &words(&rt, rt.alloc(), "get-selections")) {
        Ok(Tool::GetSelections) => {}
        _ => panic!(rt; "another tool"),
    }
}

#[test]
fn words_of_drill_are_taken_or_refused_at_their_place(rt: HostRuntime) {
    for (line, place) in [
        ("drill 1", None),
        ("drill 10", None),
        ("drill 3999", None),
        ("drill 4000", None),
        ("drill", Some(1)),
        ("drill ", Some(1)),
        ("drill 0", Some(1)),
        ("drill 01", Some(1)),
        ("drill 0001", Some(1)),
        ("drill 4001", Some(1)),
        ("drill 40000", Some(1)),
        ("drill 4294967297", Some(1)),
        ("drill +1", Some(1)),
        ("drill -1", Some(1)),
        ("drill 1x", Some(1)),
        ("drill ten", Some(1)),
        ("drill 0 1", Some(1)),
        ("drill 1 ", Some(2)),
        ("drill 1 2", Some(2)),
        ("drill 4000 x", Some(2)),
        ("drills 1", Some(0)),
    ] {
        assert_eq!(rt; refused(&rt, rt.alloc(), line), place, "at {line}");
    }
}

#[test]
fn drill_says_its_number(rt: HostRuntime) {
    let alloc = rt.alloc();
    for (line, wanted) in [("drill 1", 1), ("drill 205", 205), ("drill 4000", 4000)] {
        match read_tool(alloc, &words(&rt, alloc, line)) {
            Ok(Tool::Drill { count }) => assert_eq!(rt; count, wanted, "at {line}"),
            _ => panic!(rt; "refused"),
        }
    }
}

#[test]
fn words_of_answer_are_taken_or_refused_at_their_place(rt: HostRuntime) {
    for (line, place) in [
        ("answer s", None),
        ("answer s -x answer", None),
        ("answer", Some(1)),
        ("answer -x", Some(1)),
        ("answer - s", Some(1)),
        ("answers s", Some(0)),
    ] {
        assert_eq!(rt; refused(&rt, rt.alloc(), line), place, "at {line}");
    }
}

#[test]
fn answer_says_its_command(rt: HostRuntime) {
    let alloc = rt.alloc();
    match read_tool(alloc, &words(&rt, alloc, "answer s -x")) {
        Ok(Tool::Answer { command }) => {
            assert_eq!(rt; command.as_slice().len(), 2);
            for (place, word) in ["s", "-x"].iter().enumerate() {
                let said = command.get(place).expect(&rt, "a word");
                assert_eq!(rt; said.bytes(), word.as_bytes());
            }
        }
        _ => panic!(rt; "refused"),
    }
}
