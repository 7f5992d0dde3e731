// The lines of a file into a table. A table is one flat list, column after column, with room for 50,000 numbers in each
// column.
ghost use Rattle.std.specs.Prelude.{◌≡◌, ℕ, ◌+◌, ◌*◌, ◌<◌, ◌≤◌, [], ◌∷◌, ◌++◌, length, slice_index};
ghost use Rattle.std.proofs.Common.{zero-le, suc-le-suc};
ghost use Rattle.text.specs.Index.{listing};
ghost use Rattle.refusal.specs.Refusal.{told};
ghost use Rattle.coupling_rules.specs.Limits.{max_flights};
ghost use Rattle.stream.specs.InnerTaken.{LineTaken, next_line};
ghost use Rattle.couple_steps.specs.Table.{table_step, Rows, longest_text};
ghost use Rattle.couple_steps.specs.InnerTable.{rows_in, held_in, Roomy};

use coupling::limits::MAX_FLIGHTS;
use flights::{MOVEMENT_COLUMNS, TRACK_COLUMNS, Values, header_refusal, read_flight};
use refusal::Refusal;
use stream::inner::tables::Table;

// Room for every row: one number for each column.
pub const TRACK_CELLS: usize = MAX_FLIGHTS * TRACK_COLUMNS;

pub const MOVEMENT_CELLS: usize = MAX_FLIGHTS * MOVEMENT_COLUMNS;

// The longest line on its layout, before its CRLF: the header of the movements.
const LONGEST_LINE: usize = 51;

// The line of row 50,000.
const LAST_LINE: u64 = MAX_FLIGHTS as u64 + 1;

// Stores a row's numbers, one in each column.
fn put_row(table: &mut [u32], columns: usize, row: usize, values: Values)
    requires roomy { Roomy columns table.old }
    requires row_lt_max_flights { row < max_flights }
    ensures { rows_in columns table.new (row + 1)
        ≡ rows_in columns table.old row ++ (listing (λ k. slice_index values k) columns ∷ []) }
{
    for k in 0..columns {
        table[k * MAX_FLIGHTS + row] = values[k];
    }
}

// Takes line `number`, the header first and then rows, or refuses it.
pub fn take_line(table: &mut [u32], columns: usize, line: &[u8], number: u64) -> Result<(), Refusal>
    requires roomy { Roomy columns table.old }
    requires le_number { 1 ≤ number }
    ensures { LineTaken (table_step columns) number (held_in columns table.old number)
        line.now (told result) (held_in columns table.new (next_line number (told result))) }
{
    if number == 1 {
        return header_refusal(line, columns);
    }
    let values = read_flight(line, columns)?;
    if LAST_LINE < number {
        return Err(Refusal::WrongFlights);
    }
    put_row(table, columns, number as usize - 2, values);
    Ok(())
}

// The table of tracks.csv.
#[derive(Drop)]
pub struct Tracks {
    pub cells: [u32; TRACK_CELLS],
}

impl Table for Tracks {
    ghost Held = { Rows };

    ghost step = { λ t. table_step 8 };

    ghost held = { λ t n. held_in 8 t.cells n };

    ghost Ready = { λ t. length t.cells ≡ 8 * max_flights };

    ghost Memory = { ℕ };

    ghost memory = { λ t. 0 };

    ghost LONGEST = { 51 };

    ghost FIRST = { 1 };

    fn longest(&self) -> usize {
        LONGEST_LINE
    }

    fn take_line(&mut self, line: &[u8], number: u64) -> Result<(), Refusal> {
        take_line(&mut self.cells, TRACK_COLUMNS, line, number)
    }

    ghost begins = { suc-le-suc zero-le };
}

// The table of the movements.
#[derive(Drop)]
pub struct Movements {
    pub cells: [u32; MOVEMENT_CELLS],
}

impl Table for Movements {
    ghost Held = { Rows };

    ghost step = { λ t. table_step 9 };

    ghost held = { λ t n. held_in 9 t.cells n };

    ghost Ready = { λ t. length t.cells ≡ 9 * max_flights };

    ghost Memory = { ℕ };

    ghost memory = { λ t. 0 };

    ghost LONGEST = { 51 };

    ghost FIRST = { 1 };

    fn longest(&self) -> usize {
        LONGEST_LINE
    }

    fn take_line(&mut self, line: &[u8], number: u64) -> Result<(), Refusal> {
        take_line(&mut self.cells, MOVEMENT_COLUMNS, line, number)
    }

    ghost begins = { suc-le-suc zero-le };
}
