// A table of a caller's own, which refuses long lines by itself, and what it is as `Lines`: all in its own words.
ghost use Rattle.std.specs.Prelude.{◌≡◌, ℕ, ◌+◌, ◌^◌, ◌<◌, ◌≤◌, length};
ghost use Rattle.std.proofs.Common.{zero-le, suc-le-suc};
ghost use Rattle.refusal.specs.Refusal.{told};
ghost use Rattle.stream.specs.Reading.{reading_at};
ghost use Rattle.stream.specs.InnerTaken.{LinesTaken};
ghost use Rattle.stream_cases.specs.Lengths.{lengths};

use refusal::Refusal;
use stream::Feed;
use stream::inner::lines::{Lines, take_lines};
use stream::inner::tables::Table;

// The longest line that it takes.
const LONGEST_LINE: usize = 8;

// It holds the length of the last line.
#[derive(Drop)]
pub(crate) struct Lengths {
    pub(crate) last: usize,
}

impl Table for Lengths {
    ghost Held = { ℕ };

    ghost step = { λ l. lengths 8 };

    ghost held = { λ l n. l.last };

    ghost Ready = { λ l. Unit {0} };

    ghost Memory = { ℕ };

    ghost memory = { λ l. 0 };

    ghost LONGEST = { 8 };

    ghost FIRST = { 1 };

    fn longest(&self) -> usize {
        LONGEST_LINE
    }

    fn take_line(&mut self, line: &[u8], number: u64) -> Result<(), Refusal> {
        if LONGEST_LINE < line.len() {
            return Err(Refusal::OffLayout);
        }
        self.last = line.len();
        Ok(())
    }

    ghost begins = { suc-le-suc zero-le };
}

// How long a line any table takes, asked of it as `Lines`.
pub(crate) fn longest_of<T: Table>(table: &T) -> usize
    ensures { result ≡ T.LONGEST }
{
    Lines::longest(table)
}

// The lines that any table takes as `Lines`.
pub(crate) fn lines_of<T: Table>(table: &mut T, bytes: &[u8], line: u64) -> Feed
    requires ready { T.Ready table.old }
    requires countable { (1 ≤ line) × (line + length bytes.now < 2 ^ 64) }
    ensures taken { LinesTaken (T.step table.old) (reading_at 0 line (T.held table.old line))
        bytes.now result.at (reading_at (told result.refusal) result.line (T.held table.new result.line)) }
    ensures kept { T.Ready table.new }
    ensures same { T.step table.new ≡ T.step table.old }
    ensures lent { T.memory table.new ≡ T.memory table.old }
{
    take_lines(table, bytes, line)
}
