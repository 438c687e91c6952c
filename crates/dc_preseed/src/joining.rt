// Lines that are joined with those that they go on with.
ghost use Rattle.std.specs.Prelude.{◌≡◌, IfOk, OnOk, OnErr, not};
ghost use Rattle.std.specs.Io.BufRead.{strip_last, ends_with_byte};
ghost use Rattle.std.specs.List.{find};
ghost use Rattle.std.specs.Option.{option_copied};
ghost use Rattle.dc_text.specs.Ascii.{backslash};
ghost use Rattle.dc_text.specs.Bytes.{is_space as is_space_of};
ghost use Rattle.dc_preseed.specs.Joining.{is_comment as is_comment_of, is_alone as is_alone_of, goes_on as goes_on_of};
ghost use Rattle.dc_preseed.specs.Joiner.{at_start, with_part, continued, begun, taken, taken_behind};

use dc_text::bytes::is_space;
use dc_text::{Mem, Text};
use dc_words::{Line, MAX_LINE};
use std::alloc::Global;
use std::marker::Model;

/// A line, or several that are joined, and the number of the first of them, counted from 1.
#[derive(Drop)]
pub struct Joined {
    pub first: u64,
    pub whole: Line,
}

/// The lines of a stream, joined one after another (debconf-set-selections(1)): one that ends with a backslash goes on with the
/// next. Contracts see the number of the last line, and the joined line that goes on. At most `MAX_LINE` bytes of it are held.
#[derive(Drop)]
pub struct Joiner {
    alloc: Global,
    count: u64,
    held: Option<Joined>,
}

impl Model for Joiner {
    ghost use Rattle.std.specs.Prelude.{IsTrue};
    ghost use Rattle.dc_preseed.specs.Joiner.{Joining, is_bounded};

    ghost Value = { Joining };

    ghost view = { λ j. record { count = j.count; held = j.held } };

    ghost invariant = { λ j. IsTrue (is_bounded j.held) };
}

impl Joiner {
    /// Before the first line.
    pub fn new(alloc: Global) -> Self
        ensures { result ≡ at_start }
    {
        Joiner {
            alloc,
            count: 0,
            held: None,
        }
    }

    /// Takes the next line, which is numbered from 1, and gives the joined line that it ends, `None` where that goes on. Where
    /// memory runs out the line isn't taken.
    pub fn take(&mut self, line: &Line) -> Mem<Option<Joined>>
        ensures ok { IfOk result (λ whole. record { joining = self.new; whole = whole } ≡ taken self.old line.now) }
        ensures err { OnErr result (self.new ≡ self.old) }
    {
        let number = self.count.saturating_add(1);
        let goes_on = match &mut self.held {
            Some(one) => {
                one.continue_with(line)?;
                goes_on(line)
            }
            None => {
                if is_alone(line) {
                    let whole = copy(self.alloc, line)?;
                    self.count = number;
                    return Ok(Some(Joined {
                        first: number,
                        whole,
                    }));
                }
                self.held = Some(begin(self.alloc, number, line)?);
                true
            }
        };
        self.count = number;
        if goes_on {
            Ok(None)
        } else {
            Ok(self.held.take())
        }
    }

    /// The end of the stream: a joined line that still goes on is a line.
    pub fn end(&mut self) -> Option<Joined>
        ensures left { result ≡ self.old.held }
        ensures none { self.new ≡ record self.old { held = None } }
    {
        self.held.take()
    }
}

impl Joined {
    // Joins the line with what is there.
    fn continue_with(&mut self, line: &Line) -> Mem<()>
        ensures ok { OnOk result (self.new ≡ continued self.old line.now) }
        ensures err { OnErr result (self.new ≡ self.old) }
    {
        add_part(&mut self.whole, line)
    }
}

// Adds what the part gives to the line.
fn add_part(whole: &mut Line, part: &Line) -> Mem<()>
    ensures ok { OnOk result (whole.new ≡ with_part whole.old part.now) }
    ensures err { OnErr result (whole.new ≡ whole.old) }
{
    if let Line::Whole(text) = whole
        && let Line::Whole(more) = part
    {
        let given = without_backslash(more.bytes());
        if text.bytes().len().saturating_add(given.len()) <= MAX_LINE {
            return text.append(given);
        }
    }
    *whole = Line::TooLong;
    Ok(())
}

// A joined line that begins with the line of this number.
fn begin(alloc: Global, number: u64, line: &Line) -> Mem<Joined>
    ensures { IfOk result (λ one. one ≡ begun number line.now) }
{
    let mut whole = Line::Whole(Text::new(alloc));
    add_part(&mut whole, line)?;
    Ok(Joined {
        first: number,
        whole,
    })
}

fn copy(alloc: Global, line: &Line) -> Mem<Line>
    ensures { IfOk result (λ copy. copy ≡ line.now) }
{
    match line {
        Line::Whole(text) => Ok(Line::Whole(Text::from_bytes(alloc, text.bytes())?)),
        Line::TooLong => Ok(Line::TooLong),
    }
}

// Whether the line goes on, where it isn't alone.
fn goes_on(line: &Line) -> bool
    ensures { result ≡ goes_on_of line.now }
{
    match line {
        Line::Whole(text) => ends_with_backslash(text.bytes()),
        Line::TooLong => false,
    }
}

// Whether the line is joined with no other, where it doesn't continue one.
fn is_alone(line: &Line) -> bool
    ensures { result ≡ is_alone_of line.now }
{
    match line {
        Line::Whole(text) => is_comment(text.bytes()) || !ends_with_backslash(text.bytes()),
        Line::TooLong => true,
    }
}

/// Whether the first byte past whitespace is `#`.
pub(crate) fn is_comment(bytes: &[u8]) -> bool
    ensures { result ≡ is_comment_of bytes.now }
{
    match first_solid(bytes) {
        Some(first) => *first == b'#',
        None => false,
    }
}

// The first byte other than whitespace.
fn first_solid(bytes: &[u8]) -> Option<&u8>
    ensures { option_copied result ≡ find (λ byte. not (is_space_of byte)) bytes.now }
{
    bytes.iter().find(|byte| !is_space(**byte))
}

fn ends_with_backslash(bytes: &[u8]) -> bool
    ensures { result ≡ ends_with_byte backslash bytes.now }
{
    matches!(bytes, [.., b'\\'])
}

// The bytes without a backslash at the end.
fn without_backslash(bytes: &[u8]) -> &[u8]
    ensures { result.now ≡ strip_last backslash bytes.now }
{
    match bytes {
        [front @ .., b'\\'] => front,
        _ => bytes,
    }
}
