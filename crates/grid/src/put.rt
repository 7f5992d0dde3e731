// A network's text put into a buffer that has room for it: each part writes from a place on and answers the place past
// it.
ghost use Rattle.std.specs.Prelude.{◌+◌, ◌≤◌, ◌∷◌, length};
ghost use Rattle.text.specs.Number.{show_thousandths};
ghost use Rattle.text.specs.Spelled.{byte};
ghost use Rattle.room.specs.Room.{Wrote};
ghost use Rattle.network.specs.Edges.{Checked, Sized};
ghost use Rattle.network.specs.Limits.{max_network_level, max_origin};
ghost use Rattle.grid.specs.Write.{key_line, row_line, row_lines, text_of, show_network};
ghost use Rattle.grid.specs.InnerSteps.{Quiet, Near, ended, side_lines, place_lines};

use network::Frame;
use text::inner::{put_byte, put_end, put_text, put_thousandths, put_whole};

// A header line: its key, its number and its end.
fn put_line(out: &mut [u8], at: usize, key: &[u8], n: u32) -> usize
    requires { (n ≤ max_origin) × (at + length (ended (key_line key.now n)) ≤ length out.old) }
    ensures { Wrote out.old at (ended (key_line key.now n)) out.new result }
{
    let number = put_text(out, at, key);
    let end = put_whole(out, number, n);
    put_end(out, end)
}

// The first two header lines, at the front.
fn put_sides(out: &mut [u8], frame: Frame) -> usize
    requires { Near frame × (length (text_of (side_lines frame)) ≤ length out.old) }
    ensures { Wrote out.old 0 (text_of (side_lines frame)) out.new result }
{
    let next = put_line(out, 0, b"ncols ", frame.columns);
    put_line(out, next, b"nrows ", frame.rows)
}

// The other three.
fn put_place(out: &mut [u8], at: usize, frame: Frame) -> usize
    requires { Near frame × (at + length (text_of (place_lines frame)) ≤ length out.old) }
    ensures { Wrote out.old at (text_of (place_lines frame)) out.new result }
{
    let fourth = put_line(out, at, b"xllcenter ", frame.west);
    let fifth = put_line(out, fourth, b"yllcenter ", frame.south);
    put_line(out, fifth, b"cellsize ", frame.spacing)
}

// A space and a level.
fn put_spaced(out: &mut [u8], at: usize, v: u32) -> usize
    requires { (v ≤ max_network_level) × (at + length (byte " " ∷ show_thousandths v) ≤ length out.old) }
    ensures { Wrote out.old at (byte " " ∷ show_thousandths v) out.new result }
{
    let next = put_byte(out, at, b' ');
    put_thousandths(out, next, v)
}

// The levels of a row, parted by one space.
fn put_values(out: &mut [u8], from: usize, row: &[u32]) -> usize
    requires { (1 ≤ length row.now) × Quiet row.now
        × (from + length (row_line row.now) ≤ length out.old) }
    ensures { Wrote out.old from (row_line row.now) out.new result }
{
    let mut at = put_thousandths(out, from, row[0]);
    for level in &row[1..] {
        at = put_spaced(out, at, *level);
    }
    at
}

// A row with its end.
fn put_row(out: &mut [u8], at: usize, row: &[u32]) -> usize
    requires { (1 ≤ length row.now) × Quiet row.now
        × (at + length (ended (row_line row.now)) ≤ length out.old) }
    ensures { Wrote out.old at (ended (row_line row.now)) out.new result }
{
    let end = put_values(out, at, row);
    put_end(out, end)
}

// All rows, the northernmost first.
fn put_rows(out: &mut [u8], from: usize, levels: &[u32], columns: usize, rows: usize) -> usize
    requires { Sized levels.now columns rows × Quiet levels.now
        × (from + length (text_of (row_lines columns levels.now rows)) ≤ length out.old) }
    ensures { Wrote out.old from (text_of (row_lines columns levels.now rows))
        out.new result }
{
    let mut at = from;
    for row in (0..rows).rev() {
        let start = row * columns;
        at = put_row(out, at, &levels[start..start + columns]);
    }
    at
}

// A whole network, at the front.
pub(crate) fn put_network(out: &mut [u8], levels: &[u32], frame: Frame) -> usize
    requires { Checked levels.now frame × (length (show_network levels.now frame) ≤ length out.old) }
    ensures { Wrote out.old 0 (show_network levels.now frame) out.new result }
{
    let place = put_sides(out, frame);
    let rows = put_place(out, place, frame);
    put_rows(
        out,
        rows,
        levels,
        frame.columns as usize,
        frame.rows as usize,
    )
}
