// A type of a caller's own that takes lines: it holds the length of the last one, and refuses one of more than eight
// bytes.
ghost use Rattle.std.specs.Prelude.{ℕ};
ghost use Rattle.stream_cases.specs.Lengths.{lengths};

use refusal::Refusal;
use stream::inner::lines::Lines;

// The longest line that it takes.
const LONGEST_LINE: usize = 8;

#[derive(Drop)]
pub(crate) struct Short {
    pub(crate) last: usize,
}

impl Lines for Short {
    ghost Held = { ℕ };

    ghost step = { λ s. lengths 8 };

    ghost held = { λ s n. s.last };

    ghost Ready = { λ s. Unit {0} };

    ghost Memory = { ℕ };

    ghost memory = { λ s. 0 };

    ghost LONGEST = { 8 };

    fn longest(&self) -> usize {
        LONGEST_LINE
    }

    fn take_line(&mut self, line: &[u8], number: u64) -> Result<(), Refusal> {
        if LONGEST_LINE < line.len() {
            return Err(Refusal::OffLayout);
        }
        self.last = line.len();
        Ok(())
    }
}
