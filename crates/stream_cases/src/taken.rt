// Texts of which lines are taken: those that a CRLF ends, the last one, and a piece.
ghost use Rattle.std.specs.Prelude.{◌≤◌, length};

use crate::short::Short;
use crate::table::{Lengths, lines_of, longest_of};
use cases::show::{say, told};
use refusal::Refusal;
use stream::inner::lines::{take_last, take_lines, take_piece};

// The number of the next line, the refusal, the length of the last line, and what else is answered.
fn show(
    line: &[u8],
    number: u64,
    answer: Result<(), Refusal>,
    last: usize,
    more: usize,
    at: usize,
) {
    let refusal = refusal::told(answer) as u64;
    told(
        line,
        2,
        1,
        &[number, refusal, last as u64, more as u64, at as u64],
    );
    say(b"\n");
}

// The lines that a CRLF ends, and where the bytes behind them begin.
pub(crate) fn lines(line: &[u8], text: &[u8])
    requires { length text.now ≤ 64 }
{
    let mut short = Short { last: 99 };
    let feed = take_lines(&mut short, text, 1);
    show(line, feed.line, feed.refusal, short.last, feed.at, 0);
}

// All lines of a text, and how many bytes of the last one are read.
pub(crate) fn whole(line: &[u8], text: &[u8])
    requires { length text.now ≤ 64 }
{
    let mut short = Short { last: 99 };
    let feed = take_lines(&mut short, text, 1);
    if feed.refusal.is_ok() {
        let last = take_last(&mut short, &text[feed.at..], feed.line);
        show(line, last.line, last.refusal, short.last, last.at, 0);
    }
}

// A piece, how many bytes are left of it and where they begin, and these up to a CR: they wait at the front, or else a
// line of them is refused and none was moved.
pub(crate) fn piece(line: &[u8], text: &mut [u8], len: usize)
    requires { (len ≤ length text.old) × (length text.old ≤ 64) }
{
    let mut short = Short { last: 99 };
    let piece = take_piece(&mut short, text, len, 1);
    show(
        line,
        piece.line,
        piece.refusal,
        short.last,
        piece.left,
        piece.at,
    );
    let left = text.get(piece.at..piece.at.saturating_add(piece.left));
    let bytes: &[u8] = left.unwrap_or(b"no bytes of the piece");
    say(bytes.split(|b| *b == b'\r').next().unwrap_or(&[]));
    say(b"\n");
}

// The lines that a table takes, and the longest that it does.
pub(crate) fn table(line: &[u8], text: &[u8])
    requires { length text.now ≤ 64 }
{
    let mut lengths = Lengths { last: 99 };
    let feed = lines_of(&mut lengths, text, 1);
    let longest = longest_of(&lengths);
    show(line, feed.line, feed.refusal, lengths.last, longest, 0);
}
