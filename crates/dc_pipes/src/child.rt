// A program of the host behind pipes. It tells nothing of its words, and no talk.
ghost use Rattle.std.specs.Prelude.{◌≡◌, ◌≤◌, ◌∷◌, ◌++◌, ℕ, List, None, codes, false, length, pos, IfOk, OnOk, IsErr, MatchOption};
ghost use Rattle.std.specs.Process.{exit_code, command_program, command_args, command_var, clears_env, SameEnv, SameProgramAndArgs};
ghost use Rattle.dc_outside.specs.Programs.{no_program};
ghost use Rattle.dc_pipes.specs.Programs.{life_at, HasWords, HasSurroundings};

use crate::streams;
use dc_outside::{Child, Link, LinkError, WaitFault};
use dc_text::{List, Mem, OutOfMemory, Text};
use std::alloc::Global;
use std::io::ErrorKind;
use std::process::{Command, ExitStatus, OpenProcess, Processes, Stdio};
use std::{io, process};

// The status of a program that a signal ended.
const KILLED: u8 = 128;

// The system's number of an error (ENOEXEC): a file that may be run, and that it can't run.
const NO_PROGRAM: i32 = 8;

// How far a program has come.
#[derive(Drop)]
enum Stage<P> {
    Ready,
    Runs(P),
    Over(u8),
}

/// A program of the host. Its standard input and output are pipes, all else is as in this program but for two variables of
/// its environment: `DEBIAN_HAS_FRONTEND` is 1, and `DEBCONF_REDIR` isn't set. A file of text that names no interpreter is run by
/// `/bin/sh`. A program that can't be started, and a word that isn't UTF-8, is a failure of the start. A read or a write is a fault where the
/// program doesn't run; so is a write to one that has closed its input. Once it has ended, another is started in its place, with pipes of its
/// own.
#[derive(Drop)]
pub struct HostChild<R: Processes> {
    alloc: Global,
    rt: R,
    stage: Stage<process::Child<R::Started>>,
    faults: u64,
    refusals: u64,
    failures: u64,
}

impl<R: Processes> HostChild<R> {
    /// A program that wasn't started.
    pub fn new(alloc: Global, rt: R) -> HostChild<R>
        ensures program { (⟦<HostChild<R> as Link>⟧.link result).program ≡ no_program }
        ensures faults { result.faults ≡ 0 }
        ensures refusals { result.refusals ≡ 0 }
    {
        HostChild {
            alloc,
            rt,
            stage: Stage::Ready,
            faults: 0,
            refusals: 0,
            failures: 0,
        }
    }
}

impl<R: Processes> Link for HostChild<R> {
    ghost link = { λ h. record {
      talk = None;
      input = None;
      counts = record { faults = h.faults; refusals = h.refusals };
      program = record { life = life_at h.stage; failures = h.failures };
    } };

    fn read_some(&mut self, buf: &mut [u8]) -> Result<usize, LinkError> {
        match read_from(&mut self.stage, buf) {
            Ok(count) => Ok(count),
            Err(_) => {
                self.faults = self.faults.saturating_add(1);
                Err(LinkError::Failed)
            }
        }
    }

    fn write(&mut self, bytes: &[u8]) -> Result<(), LinkError> {
        match write_to(&mut self.stage, bytes) {
            Ok(()) => Ok(()),
            Err(_) => {
                self.faults = self.faults.saturating_add(1);
                Err(LinkError::Failed)
            }
        }
    }
}

impl<R: Processes> Child for HostChild<R> {
    fn start(&mut self, words: &List<Text>) -> Result<(), LinkError> {
        match spawn(self.alloc, &self.rt, words) {
            Ok(started) => {
                self.stage = Stage::Runs(started);
                Ok(())
            }
            Err(LinkError::Failed) => {
                self.failures = self.failures.saturating_add(1);
                Err(LinkError::Failed)
            }
            Err(LinkError::OutOfMemory) => {
                self.refusals = self.refusals.saturating_add(1);
                Err(LinkError::OutOfMemory)
            }
        }
    }

    fn wait(&mut self) -> Result<u8, WaitFault> {
        match wait_for(&mut self.stage) {
            Ok(status) => {
                let status = status_of(status);
                self.stage = Stage::Over(status);
                Ok(status)
            }
            Err(_) => {
                self.failures = self.failures.saturating_add(1);
                Err(WaitFault)
            }
        }
    }
}

fn closed<T>() -> io::Result<T>
    ensures { IsErr result }
{
    Err(io::Error::from(ErrorKind::BrokenPipe))
}

// Reads once from the output of the program.
fn read_from<P: OpenProcess>(
    stage: &mut Stage<process::Child<P>>,
    buf: &mut [u8],
) -> io::Result<usize>
    ensures bound { IfOk result (λ count. count ≤ length buf.new) }
    ensures life { life_at stage.new ≡ life_at stage.old }
{
    match stage {
        Stage::Runs(started) => match &mut started.stdout {
            Some(output) => streams::read_some(output, buf),
            None => closed(),
        },
        Stage::Ready | Stage::Over(_) => closed(),
    }
}

// Writes all the bytes to the input of the program.
fn write_to<P: OpenProcess>(stage: &mut Stage<process::Child<P>>, bytes: &[u8]) -> io::Result<()>
    ensures life { life_at stage.new ≡ life_at stage.old }
{
    match stage {
        Stage::Runs(started) => match &mut started.stdin {
            Some(input) => streams::write_all(input, bytes),
            None => closed(),
        },
        Stage::Ready | Stage::Over(_) => closed(),
    }
}

// Closes the pipes, so that a program that reads finds the end of its input and one that writes finds that nobody reads, and
// then waits for it.
fn wait_for<P: OpenProcess>(stage: &mut Stage<process::Child<P>>) -> io::Result<ExitStatus>
    ensures { life_at stage.new ≡ life_at stage.old }
{
    match stage {
        Stage::Runs(started) => {
            drop(started.stdin.take());
            drop(started.stdout.take());
            started.wait()
        }
        Stage::Ready | Stage::Over(_) => closed(),
    }
}

// The exit status, as a shell tells it apart from a signal.
fn status_of(found: ExitStatus) -> u8
    ensures { MatchOption (exit_code found) (result ≡ 128) (λ code. pos result ≡ code) }
{
    match found.code() {
        Some(code) => u8::try_from(code).unwrap_or(KILLED),
        None => KILLED,
    }
}

// Starts the program. A file of text that names no interpreter is run by the shell, as execvp(3) has it.
fn spawn<R: Processes>(
    alloc: Global,
    rt: &R,
    words: &List<Text>,
) -> Result<process::Child<R::Started>, LinkError> {
    let answer = match start(rt, command_of(alloc, words)?) {
        Err(error) if error.raw_os_error() == Some(NO_PROGRAM) => {
            start(rt, command_of(alloc, &shell_words(alloc, words)?)?)
        }
        answer => answer,
    };
    match answer {
        Ok(started) => Ok(started),
        Err(error) if error.kind() == ErrorKind::OutOfMemory => Err(LinkError::OutOfMemory),
        Err(_) => Err(LinkError::Failed),
    }
}

// Starts the command, with pipes for its standard input and output.
fn start<R: Processes>(rt: &R, mut command: Command) -> io::Result<process::Child<R::Started>> {
    command.stdin(Stdio::piped());
    command.stdout(Stdio::piped());
    command.spawn(rt)
}

// The words by which the shell takes the place of the words' own command, and runs its file if the system can't.
fn shell_words(alloc: Global, words: &List<Text>) -> Mem<List<Text>>
    ensures { IfOk result (λ longer. longer ≡ codes "/bin/sh" ∷ codes "-c" ∷ codes "exec \"$0\" \"$@\"" ∷ words.now) }
{
    let mut longer = words.copy()?;
    longer.insert(0, Text::from_bytes(alloc, b"exec \"$0\" \"$@\"")?)?;
    longer.insert(0, Text::from_bytes(alloc, b"-c")?)?;
    longer.insert(0, Text::from_bytes(alloc, b"/bin/sh")?)?;
    Ok(longer)
}

// The command of the words.
fn command_of(alloc: Global, words: &List<Text>) -> Result<Command, LinkError>
    ensures words { IfOk result (λ command. HasWords words.now command) }
    ensures surroundings { IfOk result (λ command. HasSurroundings command) }
{
    let [program, arguments @ ..] = words.as_slice() else {
        return Err(LinkError::Failed);
    };
    let mut command = Command::new(alloc, utf8(program)?).map_err(OutOfMemory::from)?;
    add_arguments(&mut command, arguments)?;
    set_variables(&mut command)?;
    Ok(command)
}

fn add_arguments(command: &mut Command, arguments: &[Text]) -> Result<(), LinkError>
    ensures program { OnOk result (command_program command.new ≡ command_program command.old) }
    ensures arguments { OnOk result (command_args command.new ≡ command_args command.old ++ arguments.now) }
    ensures variables { OnOk result (SameEnv command.old command.new) }
{
    for argument in arguments {
        command.arg(utf8(argument)?).map_err(OutOfMemory::from)?;
    }
    Ok(())
}

// Tells the program that a frontend runs, and nothing of where a confmodule's output went.
fn set_variables(command: &mut Command) -> Mem<()>
    requires inherits { clears_env command.old ≡ false }
    requires unset { (name : List ℕ) → command_var command.old name ≡ None }
    ensures surroundings { OnOk result (HasSurroundings command.new) }
    ensures words { OnOk result (SameProgramAndArgs command.old command.new) }
{
    command.env("DEBIAN_HAS_FRONTEND", "1")?;
    command.env_remove("DEBCONF_REDIR")?;
    Ok(())
}

// The word as the host takes it.
fn utf8(word: &Text) -> Result<&str, LinkError>
    ensures { IfOk result (λ text. text.now ≡ word.now) }
{
    std::str::from_utf8(word.bytes()).map_err(|_| LinkError::Failed)
}
