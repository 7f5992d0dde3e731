// The levels of a text on its layout stored: its rows run from north to south, the levels from the south row on.
ghost use Rattle.std.specs.Prelude.{◌≡◌, ◌+◌, ◌-◌, ◌*◌, ◌≤◌, length};
ghost use Rattle.room.specs.Room.{front, put};
ghost use Rattle.grid.specs.Row.{values_of, level_in, row_levels, levels_of};
ghost use Rattle.grid.specs.Read.{numbers_of, header_size};
ghost use Rattle.grid.specs.InnerSteps.{lines_at, Rows};

use crate::head::line_at;
use network::Frame;
use text::inner::field_end;
use text::number::thousandths;

// The level of a value, and 0 where it is none.
fn level_in(s: &[u8]) -> u32
    ensures { result ≡ level_in s.now }
{
    thousandths(s).unwrap_or(0)
}

// Stores a row's levels from `to` on, where there is room for them.
fn store_row(s: &[u8], out: &mut [u32], to: usize)
    requires { to + length (values_of s.now) ≤ length out.old }
    ensures { out.new ≡ put out.old to (row_levels s.now) }
{
    let mut at = 0;
    let mut i = 0;
    loop {
        let end = field_end(s, at, b' ');
        out[to + i] = level_in(&s[at..end]);
        i += 1;
        if s.len() <= end {
            return;
        }
        at = end + 1;
    }
}

// Stores the levels of all rows from `from` on, each of `columns` values, the last row first.
pub(crate) fn store_rows(s: &[u8], from: usize, columns: usize, rows: usize, out: &mut [u32])
    requires { Rows s.now from columns rows × (rows * columns ≤ length out.old) }
    ensures { out.new ≡ front (levels_of (lines_at s.now from)) out.old }
{
    let mut at = from;
    let mut south = rows;
    // Kept: (d) where the next row begins is found with the end of this one.
    while at < s.len() {
        let line = line_at(s, at);
        let end = line.end;
        south -= 1;
        store_row(&s[at..end], out, south * columns);
        at = line.next;
    }
}

// The header as numbers: columns, rows, spacing, west, south.
pub const HEADER_SIZE: usize = 5;

// Stores the header's numbers.
pub(crate) fn store_frame(frame: Frame, out: &mut [u32])
    requires { header_size ≤ length out.old }
    ensures { out.new ≡ front (numbers_of frame) out.old }
{
    let numbers = [
        frame.columns,
        frame.rows,
        frame.spacing,
        frame.west,
        frame.south,
    ];
    out[..HEADER_SIZE].copy_from_slice(&numbers);
}
