// How the serving of a link ends.
ghost use Rattle.std.specs.Prelude.{◌≡◌};
ghost use Rattle.dc_serve.specs.Inside.{link_end_of};

/// How the serving of some lines ends.
#[derive(Drop)]
pub enum Served<B> {
    On,
    Stopped,
    /// A write on the link failed.
    Failed,
    OutOfMemory,
    /// The machine didn't heed a line to its end.
    Broken(B),
}

/// How the serving of a link ends.
#[derive(Drop)]
pub enum LinkEnd<B> {
    Done,
    LinkFault,
    TooLong,
    OutOfMemory,
    Broken(B),
}

/// What the serving of a link leaves.
#[derive(Drop)]
pub struct Conversation<B> {
    pub end: LinkEnd<B>,
    /// The code of the last reply so far: where this link had none, the one before.
    pub last_code: u8,
}

/// The end of a link whose serving ended so.
pub fn link_end<B: Drop>(served: Served<B>) -> LinkEnd<B>
    ensures { result ≡ link_end_of served }
{
    match served {
        Served::On | Served::Stopped => LinkEnd::Done,
        Served::Failed => LinkEnd::LinkFault,
        Served::OutOfMemory => LinkEnd::OutOfMemory,
        Served::Broken(error) => LinkEnd::Broken(error),
    }
}
