// What takes the lines of a text, one after another, and how their bytes are taken: every line that they end, the last
// one, and a piece of a text. Who calls knows whether long lines are refused; a Table (tables.rt) says so itself.
// Kept: (a) `Lines` and what takes them ask less of a caller's own type than `Table` does, so both stand.
ghost use Rattle.std.specs.Prelude.{◌≡◌, ℕ, ◌+◌, ◌^◌, ◌<◌, ◌≤◌, length, take};
ghost use Rattle.refusal.specs.Refusal.{told};
ghost use Rattle.stream.specs.Reading.{Step, reading_at, Unended, Longest};
ghost use Rattle.stream.specs.InnerTaken.{LineTaken, LinesTaken, LastTaken, PieceTaken, next_line};

use crate::inner::tables::Table;
use crate::inner::to_front;
use crate::{Feed, Piece};
use refusal::Refusal;
use text::inner::line_end;

// A table or a book that a text fills: what each line does, and what is held before a line.
pub trait Lines {
    ghost Held: { Type 0 };

    ghost step: { Self → Step Held };

    ghost held: { Self → ℕ → Held };

    ghost Ready: { Self → Type 0 };

    // The names of the memory that it was lent: it goes on in the same.
    ghost Memory: { Type 0 };

    ghost memory: { Self → Memory };

    ghost LONGEST: { ℕ };

    // How many bytes the longest line on its layout has before its CRLF.
    fn longest(&self) -> usize
        ensures { result ≡ LONGEST };

    // Takes line `number`, the header first and then rows, or refuses it.
    fn take_line(&mut self, line: &[u8], number: u64) -> Result<(), Refusal>
        requires ready { Ready self.old }
        requires first { 1 ≤ number }
        ensures taken { LineTaken (step self.old) number (held self.old number) line.now
            (told result) (held self.new (next_line number (told result))) }
        ensures kept { Ready self.new }
        ensures same { step self.new ≡ step self.old }
        ensures lent { memory self.new ≡ memory self.old };
}

// Every Table is one.
impl<T: Table> Lines for T {
    ghost Held = { T.Table.Held };

    ghost step = { T.Table.step };

    ghost held = { T.Table.held };

    ghost Ready = { T.Table.Ready };

    ghost Memory = { T.Table.Memory };

    ghost memory = { T.Table.memory };

    ghost LONGEST = { T.Table.LONGEST };

    fn longest(&self) -> usize {
        Table::longest(self)
    }

    fn take_line(&mut self, line: &[u8], number: u64) -> Result<(), Refusal> {
        Table::take_line(self, line, number)
    }
}

// Takes every line that the bytes end, up to the first that is refused.
pub fn take_lines<T: Lines>(table: &mut T, bytes: &[u8], line: u64) -> Feed
    requires ready { T.Ready table.old }
    requires countable { (1 ≤ line) × (line + length bytes.now < 2 ^ 64) }
    ensures taken { LinesTaken (T.step table.old) (reading_at 0 line (T.held table.old line))
        bytes.now result.at (reading_at (told result.refusal) result.line (T.held table.new result.line)) }
    ensures kept { T.Ready table.new }
    ensures same { T.step table.new ≡ T.step table.old }
    ensures lent { T.memory table.new ≡ T.memory table.old }
{
    let mut at = 0;
    let mut number = line;
    let mut end = line_end(bytes, 0);
    // Kept: (d) where the next line begins is found with the end of this one.
    while 2 <= bytes.len() - end {
        let refusal = table.take_line(&bytes[at..end], number);
        if refusal.is_err() {
            return Feed {
                at,
                line: number,
                refusal,
            };
        }
        at = end + 2;
        number += 1;
        end = line_end(bytes, at);
    }
    Feed {
        at,
        line: number,
        refusal: Ok(()),
    }
}

// The end of a text: the last bytes are a line that no CRLF ends, or there are none; but a text without a line has no
// header.
pub fn take_last<T: Lines>(table: &mut T, bytes: &[u8], line: u64) -> Feed
    requires ready { T.Ready table.old }
    requires unended { Unended bytes.now }
    requires countable { (1 ≤ line) × (line + length bytes.now < 2 ^ 64) }
    ensures taken { LastTaken (T.step table.old) (reading_at 0 line (T.held table.old line))
        bytes.now (reading_at (told result.refusal) result.line (T.held table.new result.line)) }
    ensures kept { T.Ready table.new }
    ensures same { T.step table.new ≡ T.step table.old }
    ensures lent { T.memory table.new ≡ T.memory table.old }
{
    if bytes.is_empty() {
        let refusal = if line == 1 {
            Err(Refusal::OffLayout)
        } else {
            Ok(())
        };
        return Feed {
            at: 0,
            line,
            refusal,
        };
    }
    let refusal = table.take_line(bytes, line);
    if refusal.is_err() {
        return Feed {
            at: 0,
            line,
            refusal,
        };
    }
    Feed {
        at: bytes.len(),
        line: line + 1,
        refusal,
    }
}

// Takes a piece of a text: the first `len` bytes of the buffer, those that waited and those that came.
pub fn take_piece<T: Lines>(table: &mut T, bytes: &mut [u8], len: usize, line: u64) -> Piece
    requires ready { T.Ready table.old }
    requires long_is_off { Longest (T.step table.old) T.LONGEST }
    requires len_in_bounds { len ≤ length bytes.old }
    requires countable { (1 ≤ line) × (line + len < 2 ^ 64) }
    ensures taken { PieceTaken (T.step table.old) T.LONGEST (reading_at 0 line (T.held table.old line))
        (take len bytes.old) (reading_at (told result.refusal) result.line (T.held table.new result.line))
        (take result.left bytes.new) }
    ensures kept { T.Ready table.new }
    ensures same { T.step table.new ≡ T.step table.old }
    ensures lent { T.memory table.new ≡ T.memory table.old }
{
    let feed = take_lines(table, &bytes[..len], line);
    let left = len - feed.at;
    let stopped = Piece {
        at: feed.at,
        left,
        line: feed.line,
        refusal: feed.refusal,
    };
    if feed.refusal.is_err() {
        return stopped;
    }
    if table.longest() < left.saturating_sub(2) {
        return Piece {
            refusal: Err(Refusal::OffLayout),
            ..stopped
        };
    }
    to_front(bytes, feed.at, left);
    Piece { at: 0, ..stopped }
}
