// Which replies a link's talk has.
ghost use Rattle.std.specs.Prelude.{◌≡◌, ◌==◌, ◌||◌, count_by};
ghost use Rattle.dc_text.specs.Ascii.{space, newline};
ghost use Rattle.dc_drill.specs.Replies.{is_ok as is_ok_of, sends_ok as sends_ok_of, sends_refusal as sends_refusal_of};

use dc_outside::Piece;

/// How many replies of code 0 or 1 were sent.
pub fn count_ok(talk: &[Piece]) -> usize
    ensures { result ≡ count_by sends_ok_of talk.now }
{
    talk.iter().filter(|piece| sends_ok(piece)).count()
}

/// How many other replies were sent.
pub fn count_refusals(talk: &[Piece]) -> usize
    ensures { result ≡ count_by sends_refusal_of talk.now }
{
    talk.iter().filter(|piece| sends_refusal(piece)).count()
}

fn sends_ok(piece: &Piece) -> bool
    ensures { result ≡ sends_ok_of piece.now }
{
    match piece {
        Piece::Sent(reply) => is_ok(reply.bytes()),
        _ => false,
    }
}

fn sends_refusal(piece: &Piece) -> bool
    ensures { result ≡ sends_refusal_of piece.now }
{
    match piece {
        Piece::Sent(reply) => !is_ok(reply.bytes()),
        _ => false,
    }
}

fn is_ok(reply: &[u8]) -> bool
    ensures { result ≡ is_ok_of reply.now }
{
    match reply {
        [digit, next, ..] => is_ok_digit(*digit) && is_end_of_code(*next),
        _ => false,
    }
}

fn is_ok_digit(byte: u8) -> bool
    ensures { result ≡ (byte == 48 || byte == 49) }
{
    byte == b'0' || byte == b'1'
}

fn is_end_of_code(byte: u8) -> bool
    ensures { result ≡ (byte == space || byte == newline) }
{
    byte == b' ' || byte == b'\n'
}
