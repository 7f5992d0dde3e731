// The script, whose lines are the cases: it too is read into a type of a caller's own.
ghost use Rattle.std.specs.Prelude.{ℕ};
ghost use Rattle.stream_cases.specs.Lengths.{lengths};

use crate::taken::{lines, piece, table, whole};
use cases::fields::{letter, text};
use refusal::Refusal;
use stream::inner::lines::Lines;

// The longest line of a script.
const LONGEST_LINE: usize = 120;

#[derive(Drop)]
pub(crate) struct Script {
    pub(crate) last: usize,
}

// Does what a line of the script says.
fn case(line: &[u8]) {
    let mut room = [0u8; 64];
    let n = text(line, 1, &mut room);
    match letter(line) {
        b'l' => lines(line, &room[..n]),
        b't' => table(line, &room[..n]),
        b'w' => whole(line, &room[..n]),
        _ => piece(line, &mut room, n),
    }
}

impl Lines for Script {
    ghost Held = { ℕ };

    ghost step = { λ s. lengths 120 };

    ghost held = { λ s n. s.last };

    ghost Ready = { λ s. Unit {0} };

    ghost Memory = { ℕ };

    ghost memory = { λ s. 0 };

    ghost LONGEST = { 120 };

    fn longest(&self) -> usize {
        LONGEST_LINE
    }

    fn take_line(&mut self, line: &[u8], number: u64) -> Result<(), Refusal> {
        if LONGEST_LINE < line.len() {
            return Err(Refusal::OffLayout);
        }
        case(line);
        self.last = line.len();
        Ok(())
    }
}
