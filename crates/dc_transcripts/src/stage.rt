// What an example stands on, block by block.
ghost use Rattle.std.specs.Prelude.{◌≡◌};
ghost use Rattle.dc_outside.specs.Programs.{Unstarted};

use crate::playing::{Played, Task, play};
use crate::ran::Ran;
use crate::speaker::{Speaker, add_numbers, number_at};
use crate::telling::{append_calls, append_file, append_path, append_talk};
use dc_outside::{Files, MemChild, MemFiles, MemLink, Pick};
use dc_run::Settings;
use dc_text::bytes::split_line;
use dc_text::{List, Mem, Name, Text};
use std::alloc::Global;

/// The files, the settings and who speaks, and from the first run on what stands then and what came of the last run.
#[derive(Drop)]
pub struct Stage {
    alloc: Global,
    /// The files before the first run.
    entries: Vec<(Text, Text)>,
    settings: Settings,
    /// The numbers of the calls of files that fail, and of the first that stops them all.
    failing: Vec<u64>,
    stopped: Option<u64>,
    /// How many changes each layer in a file takes before it finds no memory.
    changes: u64,
    /// Words of the next run.
    words: List<Text>,
    /// The question of which it is told what the databases hold.
    held: Option<Name>,
    /// Who speaks over the link, and who hears what goes to standard error.
    io: Speaker,
    err: Speaker,
    /// What the program says that `run` starts, and the status with which it ends.
    child: Speaker,
    child_status: u8,
    files: Option<MemFiles>,
    /// The talk and the calls of the last run.
    talk: Text,
    child_talk: Text,
    calls: Text,
}

impl Stage {
    /// No files, and nothing is set.
    pub fn new(alloc: Global) -> Option<Stage> {
        let settings = Settings {
            conf_path: Text::from_bytes(alloc, b"conf").ok()?,
            frontend: None,
            priority: None,
            lang: Text::new(alloc),
            nonint_seen: false,
        };
        Some(Stage {
            alloc,
            entries: Vec::new(alloc),
            settings,
            failing: Vec::new(alloc),
            stopped: None,
            changes: u64::MAX,
            words: List::new(alloc),
            held: None,
            io: Speaker::new(alloc),
            err: Speaker::new(alloc),
            child: Speaker::new(alloc),
            child_status: 0,
            files: None,
            talk: Text::new(alloc),
            child_talk: Text::new(alloc),
            calls: Text::new(alloc),
        })
    }

    /// Does what a block says, as the head of the page tells it, and adds what comes of that.
    pub fn take(&mut self, words: &[Text], text: &Text, told: &mut Text) -> Option<()> {
        let [name, words @ ..] = words else {
            return Some(());
        };
        match name.bytes() {
            b"file" | b"no" | b"below" => self.set_file(name.bytes(), words, text),
            b"run" => self.run(words, text, told),
            b"show" => self.show(words, told),
            b"mode" => self.tell_modes(words, told),
            b"crash" => self.crash(words.get(0)?, told),
            b"calls" => told.append(self.calls.bytes()).ok(),
            b"talk" => told.append(self.talk.bytes()).ok(),
            b"child_talk" => told.append(self.child_talk.bytes()).ok(),
            other => self.set(other, words, text),
        }
    }

    fn set(&mut self, name: &[u8], words: &[Text], text: &Text) -> Option<()> {
        match name {
            b"lang" => self.settings.lang = words.get(0)?.copy().ok()?,
            b"frontend" => self.settings.frontend = Some(words.get(0)?.copy().ok()?),
            b"priority" => self.settings.priority = Some(words.get(0)?.copy().ok()?),
            b"nonint_seen" => self.settings.nonint_seen = true,
            b"tired" => self.changes = 1,
            b"files_fail" => add_numbers(&mut self.failing, words)?,
            b"stopped" => self.stopped = Some(number_at(words, 0)?),
            b"words" => self.add_words(text)?,
            b"held" => self.held = Some(Name::read(self.alloc, words.get(0)?.bytes()).ok()?),
            _ => self.set_input(name, words, text)?,
        }
        Some(())
    }

    // What comes over the link, and how.
    fn set_input(&mut self, name: &[u8], words: &[Text], text: &Text) -> Option<()> {
        match name {
            b"times" => self.io.say_often(number_at(words, 0)?, text),
            b"fill" => self.io.say_word(number_at(words, 0)?, words.get(1)?),
            b"bytes" => self.io.say_bytes(words),
            b"cuts" => self.io.cut(words),
            b"link_fails" => self.io.fail(words),
            b"err_fails" => self.err.fail(words),
            b"open" => {
                self.io.leave_open();
                Some(())
            }
            _ => self.set_child(name, words, text),
        }
    }

    // What the program writes that is started, and how it ends.
    fn set_child(&mut self, name: &[u8], words: &[Text], text: &Text) -> Option<()> {
        match name {
            b"child" => self.child.say(text),
            b"child_cuts" => self.child.cut(words),
            b"child_fails" => self.child.fail(words),
            b"status" => {
                self.child_status = u8::try_from(number_at(words, 0)?).ok()?;
                Some(())
            }
            _ => None,
        }
    }

    // A word of the next run a line.
    fn add_words(&mut self, text: &Text) -> Option<()> {
        let mut rest = text.bytes();
        while !rest.is_empty() {
            let (line, after) = split_line(rest);
            let word = Text::from_bytes(self.alloc, line).ok()?;
            self.words.push(word).ok()?;
            rest = after;
        }
        Some(())
    }

    // What a file holds before the first run.
    fn set_file(&mut self, name: &[u8], words: &[Text], text: &Text) -> Option<()> {
        let path = words.get(0)?;
        if self.files.is_some() {
            return None;
        }
        let text = match name {
            b"file" => text.copy().ok()?,
            b"below" => inserted(
                self.alloc,
                entry_of(&self.entries, path)?.bytes(),
                text.bytes(),
            )?,
            _ => return self.remove(path),
        };
        self.remove(path)?;
        self.entries.push((path.copy().ok()?, text)).ok()
    }

    fn remove(&mut self, path: &Text) -> Option<()> {
        for place in 0..self.entries.len() {
            if self.entries.get(place)?.0.bytes() == path.bytes() {
                let _ = self.entries.swap_remove(place);
                return Some(());
            }
        }
        Some(())
    }

    // A run of these words, behind those that were said, over the text, behind what was said.
    fn run(&mut self, words: &[Text], text: &Text, told: &mut Text) -> Option<()> {
        for word in words {
            self.words.push(word.copy().ok()?).ok()?;
        }
        self.io.say(text)?;
        let ran = self.play_on()?;
        ran.tell(self.alloc, told)?;
        self.keep_talk(&ran)
    }

    // Plays the run over the files, and keeps these and what it did with them.
    fn play_on(&mut self) -> Option<Ran> {
        let mut files = match self.files.take() {
            Some(files) => files,
            None => self.first_files()?,
        };
        let calls_before = files.calls().len();
        let ran = self.play_over(&mut files)?;
        self.keep_calls(&files, calls_before)?;
        self.files = Some(files);
        Some(ran)
    }

    fn play_over(&self, files: &mut MemFiles) -> Option<Ran> {
        let mut io = self.io.link()?;
        let mut child = self.child.program(self.child_status)?;
        let mut err = self.err.link()?;
        let played = self.play(&mut io, &mut err, &mut child, files).ok()?;
        Some(Ran {
            io,
            err,
            child,
            played,
        })
    }

    // Keeps what the run did with the files.
    fn keep_calls(&mut self, files: &MemFiles, before: usize) -> Option<()> {
        self.calls = Text::new(self.alloc);
        append_calls(&mut self.calls, files.calls().as_slice().get(before..)?)
    }

    // Keeps what was said, and has nothing more be said.
    fn keep_talk(&mut self, ran: &Ran) -> Option<()> {
        self.talk = Text::new(self.alloc);
        append_talk(self.alloc, &mut self.talk, ran.io.talk().as_slice())?;
        self.child_talk = Text::new(self.alloc);
        append_talk(
            self.alloc,
            &mut self.child_talk,
            ran.child.talk().as_slice(),
        )?;
        self.words = List::new(self.alloc);
        self.io = Speaker::new(self.alloc);
        self.err = Speaker::new(self.alloc);
        self.child = Speaker::new(self.alloc);
        Some(())
    }

    fn first_files(&self) -> Option<MemFiles> {
        match self.stopped {
            Some(first) => MemFiles::stopped_from(self.alloc, &self.entries, first).ok(),
            None => MemFiles::new(self.alloc, &self.entries, &self.failing).ok(),
        }
    }

    fn play(
        &self,
        io: &mut MemLink,
        err: &mut MemLink,
        child: &mut MemChild,
        files: &mut MemFiles,
    ) -> Mem<Played>
        requires { child.old.program.life ≡ Unstarted }
    {
        let task = Task {
            words: &self.words,
            settings: &self.settings,
            changes: self.changes,
            held: self.held.as_ref(),
        };
        play(self.alloc, task, io, err, child, files)
    }

    // What stands at the paths now, and which other files don't stand as before.
    fn show(&mut self, words: &[Text], told: &mut Text) -> Option<()> {
        let files = self.files.as_mut()?;
        for path in words {
            let found = files.read(path).ok()?;
            let before = entry_of(&self.entries, path);
            append_file(self.alloc, told, path, found.as_ref(), before)?;
        }
        for (path, before) in &self.entries {
            if !is_among(words, path) && !is_text(files.read(path).ok()?.as_ref(), before) {
                append_path(told, b"- ", path, b" changed")?;
            }
        }
        Some(())
    }

    // The modes of the files at the paths.
    fn tell_modes(&mut self, words: &[Text], told: &mut Text) -> Option<()> {
        let files = self.files.as_ref()?;
        for path in words {
            match files.mode(path) {
                None => append_path(told, b"- no ", path, b"")?,
                Some(mode) => {
                    let told_mode = format!(in self.alloc; " has mode {mode:o}").ok()?;
                    append_path(told, b"- ", path, told_mode.as_bytes())?;
                }
            }
        }
        Some(())
    }

    // What crashes leave at the path.
    fn crash(&mut self, path: &Text, told: &mut Text) -> Option<()> {
        for (pick, what) in [
            (Pick::Oldest, b"the oldest".as_slice()),
            (Pick::Newest, b"the newest".as_slice()),
            (Pick::Junk, b"no bytes that weren't synced".as_slice()),
        ] {
            let mut left = self.files.as_ref()?.after_crash(pick).ok()?;
            told.append(b"- after a crash that leaves ").ok()?;
            told.append(what).ok()?;
            told.append(b":\n").ok()?;
            let found = left.read(path).ok()?;
            let before = entry_of(&self.entries, path);
            append_file(self.alloc, told, path, found.as_ref(), before)?;
        }
        Some(())
    }
}

fn entry_of<'e>(entries: &'e [(Text, Text)], path: &Text) -> Option<&'e Text> {
    for (other, text) in entries {
        if other.bytes() == path.bytes() {
            return Some(text);
        }
    }
    None
}

fn is_among(words: &[Text], path: &Text) -> bool {
    words.iter().any(|word| word.bytes() == path.bytes())
}

fn is_text(found: Option<&Text>, text: &Text) -> bool {
    match found {
        Some(found) => found.bytes() == text.bytes(),
        None => false,
    }
}

// The text with further lines below one of its lines: that which is the first line of the others.
fn inserted(alloc: Global, text: &[u8], lines: &[u8]) -> Option<Text> {
    if lines.is_empty() {
        return None;
    }
    let (head, more) = split_line(lines);
    let mut all = Text::new(alloc);
    let mut rest = text;
    while !rest.is_empty() {
        let (line, after) = split_line(rest);
        all.append(line).ok()?;
        all.push(b'\n').ok()?;
        if line == head {
            all.append(more).ok()?;
            all.append(after).ok()?;
            return Some(all);
        }
        rest = after;
    }
    None
}
