// What the program writes to: a write fails where nobody reads, and raises no signal.
use std::io::{Error, ErrorKind, Result, Write};
use std::os::fd::AsFd;
use std::process::ChildStdin;

/// Standard output or standard error. A process that writes to a pipe that nobody reads is ended by a signal (SIGPIPE): here the
/// write fails.
#[derive(Drop)]
pub struct HostOutput {
    // none where the stream is closed. The kit's end of a child's pipe holds SIGPIPE back
    sink: Option<ChildStdin>,
}

impl HostOutput {
    pub fn new<S: AsFd>(stream: &S) -> HostOutput {
        HostOutput {
            sink: match stream.as_fd().try_clone_to_owned() {
                Ok(own) => Some(ChildStdin::from(own)),
                Err(_) => None,
            },
        }
    }
}

impl Write for HostOutput {
    fn write(&mut self, buf: &[u8]) -> Result<usize> {
        match &mut self.sink {
            Some(sink) => sink.write(buf),
            None => Err(Error::from(ErrorKind::BrokenPipe)),
        }
    }

    // Nothing is held in a buffer.
    fn flush(&mut self) -> Result<()> {
        Ok(())
    }
}
