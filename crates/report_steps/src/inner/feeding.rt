// A register's bytes as they come: its lines, one after another, into the book.
ghost use Rattle.std.specs.Prelude.{◌≡◌, ℕ, true};
ghost use Rattle.std.proofs.Common.{zero-le};
ghost use Rattle.book_rules.specs.Columns.{Book, book_lent, sound};
ghost use Rattle.stream.specs.InnerTaken.{LineTaken};
ghost use Rattle.refusal.specs.Refusal.{told};
ghost use Rattle.report_steps.specs.Reading.{points_refusal, header_points, register_step};

use crate::inner::take_row;
use refusal::Refusal;
use register::header::register_points;
use stream::inner::tables::Table;

// The longest row of a register on its layout, before its CRLF.
pub const LONGEST_ROW: usize = 84;

// The refusal of a first line: it is the header of a register with as many levels as there are points.
fn header_refusal(line: &[u8], points: usize) -> Result<(), Refusal>
    ensures { told result ≡ points_refusal points (header_points line.now) }
{
    match register_points(line) {
        Some(n) if n as usize == points => Ok(()),
        _ => Err(Refusal::OffLayout),
    }
}

// Takes line `number`, the header first and then rows, or refuses it.
pub fn take_line(
    ids: &mut [u32],
    groups: &mut [u32],
    marks: &mut [u32],
    counts: &mut [u32],
    levels: &mut [u32],
    points: usize,
    line: &[u8],
    number: u64,
) -> Result<(), Refusal>
    requires { sound points (book_lent ids.old groups.old marks.old counts.old levels.old) ≡ true }
    ensures { LineTaken (register_step points) number (book_lent ids.old groups.old marks.old counts.old levels.old)
        line.now (told result) (book_lent ids.new groups.new marks.new counts.new levels.new) }
{
    if number == 1 {
        return header_refusal(line, points);
    }
    take_row(ids, groups, marks, counts, levels, points, line)?;
    Ok(())
}

// The columns of a book that a register fills.
#[derive(Drop)]
pub struct Register<'a> {
    pub ids: &'a mut [u32],
    pub groups: &'a mut [u32],
    pub marks: &'a mut [u32],
    pub counts: &'a mut [u32],
    pub levels: &'a mut [u32],
    pub points: usize,
}

impl<'a> Table for Register<'a> {
    ghost Held = { Book };

    ghost step = { λ r. register_step r.points };

    ghost held = { λ r line. book_lent r.ids.now r.groups.now r.marks.now r.counts.now r.levels.now };

    ghost Ready = { λ r.
        sound r.points (book_lent r.ids.now r.groups.now r.marks.now r.counts.now r.levels.now) ≡ true };

    ghost Memory = { ℕ × ℕ × ℕ × ℕ × ℕ };

    ghost memory = { λ r.
        (r.ids.ghost_name, r.groups.ghost_name, r.marks.ghost_name, r.counts.ghost_name, r.levels.ghost_name) };

    ghost LONGEST = { 84 };

    ghost FIRST = { 0 };

    fn longest(&self) -> usize {
        LONGEST_ROW
    }

    fn take_line(&mut self, line: &[u8], number: u64) -> Result<(), Refusal> {
        take_line(
            self.ids,
            self.groups,
            self.marks,
            self.counts,
            self.levels,
            self.points,
            line,
            number,
        )
    }

    ghost begins = { zero-le };
}
