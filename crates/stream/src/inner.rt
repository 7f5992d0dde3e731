// Parts of every reading: the turn that a piece, an end or a read that failed makes, and the bytes that wait.
ghost use Rattle.std.specs.Prelude.{◌≡◌, ◌+◌, ◌≤◌, length, take, drop};
ghost use Rattle.stream.specs.Feeding.{turn_of, ended_at, failed_at};

use crate::{Feed, Piece, State, Turn};
use refusal::Refusal;

pub mod filling;
pub mod lines;
pub mod reading;
pub mod tables;

// A piece was taken: the text is read on, or a line of it is refused.
pub fn turned(piece: Piece) -> Turn
    ensures { result ≡ turn_of piece }
{
    let state = match piece.refusal {
        Ok(()) => State::Going,
        Err(_) => State::Stopped,
    };
    Turn {
        at: piece.at,
        left: piece.left,
        line: piece.line,
        refusal: piece.refusal,
        state,
    }
}

// The text has ended; its last line began `left` bytes before.
pub fn ended(feed: Feed, left: usize) -> Turn
    ensures { result ≡ ended_at feed left }
{
    Turn {
        at: 0,
        left,
        line: feed.line,
        refusal: feed.refusal,
        state: State::Ended,
    }
}

// The text can't be read on. That is never taken for the end, or lines would drop out unseen.
pub fn failed(line: u64) -> Turn
    ensures { result ≡ failed_at line }
{
    Turn {
        at: 0,
        left: 0,
        line,
        refusal: Err(Refusal::OffLayout),
        state: State::Failed,
    }
}

// Moves `n` bytes from `from` on to the front.
pub fn to_front(bytes: &mut [u8], from: usize, n: usize)
    requires { from + n ≤ length bytes.old }
    ensures { take n bytes.new ≡ take n (drop from bytes.old) }
{
    bytes.copy_within(from..from + n, 0);
}
