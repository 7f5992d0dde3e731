// A table or a book that a text fills, line after line, and how the text's bytes are taken into it: every line that
// they end, the last one, and a piece of a text.
ghost use Rattle.std.specs.Prelude.{◌≡◌, ℕ, ◌+◌, ◌^◌, ◌<◌, ◌≤◌, length, take};
ghost use Rattle.refusal.specs.Refusal.{told};
ghost use Rattle.stream.specs.Reading.{Step, reading_at, Unended, Longest};
ghost use Rattle.stream.specs.InnerTaken.{LineTaken, LinesTaken, LastTaken, PieceTaken, next_line};

use crate::inner::to_front;
use crate::{Feed, Piece};
use refusal::Refusal;
use text::inner::line_end;

// A table or a book that a text fills: what each line does, and what is held before a line. It refuses long lines by
// itself.
pub trait Table {
    ghost Held: { Type 0 };

    ghost step: { Self → Step Held };

    ghost held: { Self → ℕ → Held };

    ghost Ready: { Self → Type 0 };

    // The names of the memory that it was lent: it goes on in the same.
    ghost Memory: { Type 0 };

    ghost memory: { Self → Memory };

    ghost LONGEST: { ℕ };

    // The least number that a line may have.
    ghost FIRST: { ℕ };

    // How many bytes the longest line on its layout has before its CRLF: a longer one is refused.
    fn longest(&self) -> usize
        ensures value { result ≡ LONGEST }
        ensures long_is_off { Longest (step self.now) LONGEST };

    // Takes line `number`, the header first and then rows, or refuses it.
    fn take_line(&mut self, line: &[u8], number: u64) -> Result<(), Refusal>
        requires ready { Ready self.old }
        requires first { FIRST ≤ number }
        ensures taken { LineTaken (step self.old) number (held self.old number) line.now
            (told result) (held self.new (next_line number (told result))) }
        ensures kept { Ready self.new }
        ensures same { step self.new ≡ step self.old }
        ensures lent { memory self.new ≡ memory self.old };

    // A text's first line may have its number, 1.
    ghost begins: { FIRST ≤ 1 };
}

// Takes every line that the bytes end, up to the first that is refused.
pub fn fill_lines<T: Table>(table: &mut T, bytes: &[u8], line: u64) -> Feed
    requires ready { T.Ready table.old }
    requires countable { (T.FIRST ≤ line) × (line + length bytes.now < 2 ^ 64) }
    ensures taken { LinesTaken (T.step table.old) (reading_at 0 line (T.held table.old line))
        bytes.now result.at (reading_at (told result.refusal) result.line (T.held table.new result.line)) }
    ensures kept { T.Ready table.new }
    ensures same { T.step table.new ≡ T.step table.old }
    ensures lent { T.memory table.new ≡ T.memory table.old }
{
    let mut at = 0;
    let mut number = line;
    let mut end = line_end(bytes, 0);
    // Kept: (d) where the next line begins is found with the end of this one.
    while 2 <= bytes.len() - end {
        let refusal = table.take_line(&bytes[at..end], number);
        if refusal.is_err() {
            return Feed {
                at,
                line: number,
                refusal,
            };
        }
        at = end + 2;
        number += 1;
        end = line_end(bytes, at);
    }
    Feed {
        at,
        line: number,
        refusal: Ok(()),
    }
}

// The end of a text: the last bytes are a line that no CRLF ends, or there are none; but a text without a line has no
// header.
pub fn fill_last<T: Table>(table: &mut T, bytes: &[u8], line: u64) -> Feed
    requires ready { T.Ready table.old }
    requires unended { Unended bytes.now }
    requires countable { (1 ≤ line) × (line + length bytes.now < 2 ^ 64) }
    ensures taken { LastTaken (T.step table.old) (reading_at 0 line (T.held table.old line))
        bytes.now (reading_at (told result.refusal) result.line (T.held table.new result.line)) }
    ensures kept { T.Ready table.new }
    ensures same { T.step table.new ≡ T.step table.old }
    ensures lent { T.memory table.new ≡ T.memory table.old }
{
    if bytes.is_empty() {
        let refusal = if line == 1 {
            Err(Refusal::OffLayout)
        } else {
            Ok(())
        };
        return Feed {
            at: 0,
            line,
            refusal,
        };
    }
    let refusal = table.take_line(bytes, line);
    if refusal.is_err() {
        return Feed {
            at: 0,
            line,
            refusal,
        };
    }
    Feed {
        at: bytes.len(),
        line: line + 1,
        refusal,
    }
}

// Takes a piece of a text: the first `len` bytes of the buffer, those that waited and those that came.
pub fn fill_piece<T: Table>(table: &mut T, bytes: &mut [u8], len: usize, line: u64) -> Piece
    requires ready { T.Ready table.old }
    requires len_in_bounds { len ≤ length bytes.old }
    requires countable { (T.FIRST ≤ line) × (line + len < 2 ^ 64) }
    ensures taken { PieceTaken (T.step table.old) T.LONGEST (reading_at 0 line (T.held table.old line))
        (take len bytes.old) (reading_at (told result.refusal) result.line (T.held table.new result.line))
        (take result.left bytes.new) }
    ensures kept { T.Ready table.new }
    ensures same { T.step table.new ≡ T.step table.old }
    ensures lent { T.memory table.new ≡ T.memory table.old }
{
    let feed = fill_lines(table, &bytes[..len], line);
    let left = len - feed.at;
    let stopped = Piece {
        at: feed.at,
        left,
        line: feed.line,
        refusal: feed.refusal,
    };
    if feed.refusal.is_err() {
        return stopped;
    }
    if table.longest() < left.saturating_sub(2) {
        return Piece {
            refusal: Err(Refusal::OffLayout),
            ..stopped
        };
    }
    to_front(bytes, feed.at, left);
    Piece { at: 0, ..stopped }
}
