// Loading a layer that comes through a pipe.
ghost use Rattle.std.specs.Prelude.{◌≡◌, ◌<◌, ◌≤◌, [], length, IfOk};
ghost use Rattle.std.specs.FinMap as map;
ghost use Rattle.dc_layer.specs.State.{blank, set_up};
ghost use Rattle.dc_save.specs.PipeLoading.{ReadsPipe, LoadsPipe, most_piped};
ghost use Rattle.dc_save.specs.PipeTurns.{TakesPiece, ReadsToEnd, TakesPiped, PassesOverPipe};

use crate::loading::take_records;
use dc_conf::spec::LayerSpec;
use dc_item::{RecordError, read_records};
use dc_layer::Layer;
use dc_outside::{Link, LinkError};
use dc_text::{Mem, OutOfMemory, Text};
use std::alloc::Global;

// So many bytes may come through a pipe: 64 MiB.
const MOST_PIPED: usize = 67_108_864;

// So many bytes are read at most at a time.
const PIECE: usize = 65_536;

/// What became of a layer that was to be loaded.
#[derive(Clone, Copy, Debug, PartialEq, Eq)]
pub enum PipeLoaded {
    Here,
    /// The link couldn't be read to its end, and a run doesn't need the layer.
    LeftOut,
}

/// Why a layer wasn't loaded.
#[derive(Clone, Copy, Debug, PartialEq, Eq)]
pub enum PipeError {
    /// A read failed.
    Failed,
    /// What came has no reading, and the line is its first bad one, from 1.
    Damaged { line: u64 },
    /// More than 64 MiB came.
    TooLong,
    OutOfMemory,
}

impl From<OutOfMemory> for PipeError {
    ghost use Rattle.std.specs.Prelude.{◌≡◌};
    ghost use Rattle.dc_save.specs.declared.pipe_loading.PipeError.TheVariants.{OutOfMemory};

    ghost from_gives = { λ _ e. e ≡ OutOfMemory };

    fn from(_: OutOfMemory) -> Self {
        PipeError::OutOfMemory
    }
}

// How a read of one more piece ended.
#[derive(Drop)]
enum PieceEnd {
    Came,
    AtEnd,
    Broken,
    TooLong,
    OutOfMemory,
}

// How reading the link to its end ended.
#[derive(Drop)]
enum ReadEnd {
    Whole(Text),
    Broken,
    TooLong,
    OutOfMemory,
}

// Reads one more piece behind the text. One that would make it too long isn't kept.
fn take_piece<L: Link>(link: &mut L, buf: &mut [u8], text: &mut Text) -> PieceEnd
    requires some { 0 < length buf.old }
    requires small { length buf.old ≤ PIECE }
    requires fits { length text.old ≤ most_piped }
    ensures takes { TakesPiece text.old text.new (L.link link.old) (L.link link.new) result }
    ensures buffer { length buf.new ≡ length buf.old }
{
    let count = match link.read_some(buf) {
        Ok(count) => count,
        Err(LinkError::Failed) => return PieceEnd::Broken,
        Err(LinkError::OutOfMemory) => return PieceEnd::OutOfMemory,
    };
    if count == 0 {
        return PieceEnd::AtEnd;
    }
    if text.bytes().len() + count > MOST_PIPED {
        return PieceEnd::TooLong;
    }
    match text.append(&buf[..count]) {
        Ok(()) => PieceEnd::Came,
        Err(_) => PieceEnd::OutOfMemory,
    }
}

// Reads pieces into the buffer, to the end of the link.
fn read_pieces<L: Link>(alloc: Global, link: &mut L, buf: &mut [u8]) -> ReadEnd
    requires some { 0 < length buf.old }
    requires small { length buf.old ≤ PIECE }
    ensures { ReadsToEnd (L.link link.old) (L.link link.new) result }
{
    let mut text = Text::new(alloc);
    loop {
        match take_piece(link, buf, &mut text) {
            PieceEnd::Came => {}
            PieceEnd::AtEnd => return ReadEnd::Whole(text),
            PieceEnd::Broken => return ReadEnd::Broken,
            PieceEnd::TooLong => return ReadEnd::TooLong,
            PieceEnd::OutOfMemory => return ReadEnd::OutOfMemory,
        }
    }
}

fn buffer(alloc: Global) -> Mem<Vec<u8>>
    ensures { IfOk result (λ buf. length buf.items ≡ PIECE) }
{
    let mut buf = Vec::new(alloc);
    buf.resize(PIECE, 0)?;
    Ok(buf)
}

// Reads the link to its end.
fn read_whole<L: Link>(alloc: Global, link: &mut L) -> ReadEnd
    ensures { ReadsToEnd (L.link link.old) (L.link link.new) result }
{
    match buffer(alloc) {
        Ok(mut buf) => read_pieces(alloc, link, buf.as_mut_slice()),
        Err(_) => ReadEnd::OutOfMemory,
    }
}

// Takes in the records of the text that came.
fn take_piped(
    alloc: Global,
    layer: &mut Box<dyn Layer>,
    text: &Text,
) -> Result<PipeLoaded, PipeError>
    requires empty { (state layer.old).table ≡ map.empty }
    requires untouched { (state layer.old).touched ≡ [] }
    ensures { TakesPiped text.now (state layer.old) (state layer.new) result }
{
    match read_records(alloc, text.bytes()) {
        Ok(records) => {
            take_records(layer, records);
            Ok(PipeLoaded::Here)
        }
        Err(RecordError::Bad { line }) => Err(PipeError::Damaged { line }),
        Err(RecordError::OutOfMemory) => Err(PipeError::OutOfMemory),
    }
}

// Leaves the layer out, unless a run needs it.
fn pass_over(layer: &mut Box<dyn Layer>, required: bool) -> Result<PipeLoaded, PipeError>
    ensures { PassesOverPipe required (state layer.old) (state layer.new) result }
{
    if required {
        return Err(PipeError::Failed);
    }
    layer.leave_out();
    Ok(PipeLoaded::LeftOut)
}

// Loads the layer from the link.
fn load_read<L: Link>(
    alloc: Global,
    link: &mut L,
    spec: &LayerSpec,
    layer: &mut Box<dyn Layer>,
) -> Result<PipeLoaded, PipeError>
    requires empty { (state layer.old).table ≡ map.empty }
    requires untouched { (state layer.old).touched ≡ [] }
    ensures { ReadsPipe spec.now (state layer.old) (state layer.new) (L.link link.old) (L.link link.new) result }
{
    match read_whole(alloc, link) {
        ReadEnd::Whole(text) => take_piped(alloc, layer, &text),
        ReadEnd::Broken => pass_over(layer, spec.required),
        ReadEnd::TooLong => Err(PipeError::TooLong),
        ReadEnd::OutOfMemory => Err(PipeError::OutOfMemory),
    }
}

/// Loads a layer that comes through a pipe, which was set up with the spec, and with which nothing was done since.
///
/// The link is read to its end, and the records of what came become the layer's table. Where the spec says that nothing is read, the
/// link is left alone. Where a read fails, a layer that a run doesn't need is left out.
pub fn load_pipe<L: Link>(
    alloc: Global,
    link: &mut L,
    spec: &LayerSpec,
    layer: &mut Box<dyn Layer>,
) -> Result<PipeLoaded, PipeError>
    requires { state layer.old ≡ set_up (blank spec.now.sort) spec.now }
    ensures { LoadsPipe spec.now (state layer.old) (state layer.new) (L.link link.old) (L.link link.new) result }
{
    if !spec.infd {
        return Ok(PipeLoaded::Here);
    }
    load_read(alloc, link, spec, layer)
}
