// Pieces of the text put into a buffer that has room.
ghost use Rattle.std.specs.Prelude.{◌≡◌, ◌+◌, ◌-◌, ◌<◌, ◌≤◌, true, length, if◌then◌else◌, nat_lt};
ghost use Rattle.room.specs.Room.{Wrote};
ghost use Rattle.network.specs.Edges.{edges, Checked};
ghost use Rattle.network.specs.Crossed.{crossed_at};
ghost use Rattle.wkt.specs.Text.{show_spot, place_text};
ghost use Rattle.wkt.specs.InnerParts.{Reached, PrintableNow, end_text, before_text, piece_before, next_of};

use crate::place::spot_of;
use crate::{Cursor, Part, Spot};
use network::Frame;

// Millimetres have three decimals of a metre.
const DECIMALS: usize = 3;

// A place: x, a space and y.
pub(crate) fn put_spot(out: &mut [u8], at: usize, spot: Spot) -> usize
    requires { at + length (show_spot spot) ≤ length out.old }
    ensures { Wrote out.old at (show_spot spot) out.new result }
{
    let x = spot.x;
    let y = spot.y;
    let space = text::inner::put_decimal(out, at, x, DECIMALS);
    let next = text::inner::put_byte(out, space, b' ');
    text::inner::put_decimal(out, next, y, DECIMALS)
}

// The place of the crossing on the edge of a number.
fn put_place(levels: &[u32], frame: Frame, v: u32, n: u32, out: &mut [u8], at: usize) -> usize
    requires { Checked levels.now frame × (((n < edges frame.columns frame.rows)
        × (crossed_at levels.now frame.columns frame.rows v n ≡ true))
        × (at + length (place_text levels.now frame v n) ≤ length out.old)) }
    ensures { Wrote out.old at (place_text levels.now frame v n)
        out.new result }
{
    let nx = frame.columns as usize;
    let ny = frame.rows as usize;
    let edge = network::inner::edge_at(nx, ny, n as usize);
    put_spot(out, at, spot_of(levels, frame, v, edge))
}

// The end of all lines, or the whole text where there is none.
fn put_end(piece: &mut [u8], line: usize) -> usize
    requires { 64 ≤ length piece.old }
    ensures { Wrote piece.old 0 (end_text line) piece.new result }
{
    if line == 0 {
        return text::inner::put_text(piece, 0, b"MULTILINESTRING EMPTY");
    }
    text::inner::put_byte(piece, 0, b')')
}

// What stands before a point.
fn put_before(piece: &mut [u8], line: usize, point: usize) -> usize
    requires { 64 ≤ length piece.old }
    ensures { Wrote piece.old 0 (before_text line point) piece.new result }
{
    match (point, line) {
        (0, 0) => text::inner::put_text(piece, 0, b"MULTILINESTRING (("),
        (0, _) => text::inner::put_text(piece, 0, b", ("),
        _ => text::inner::put_text(piece, 0, b", "),
    }
}

// The place of a point's edge past the line's first: past the last edge a closed line is at its first again.
fn around(point: usize, count: usize) -> usize
    ensures { result ≡ (if nat_lt point count then point else point - count) }
{
    if point < count { point } else { point - count }
}

// One piece of the text, at the front of a buffer.
pub(crate) fn put_step(
    levels: &[u32],
    frame: Frame,
    v: u32,
    listed: &[u32],
    counts: &[u32],
    closed: &[u32],
    at: Cursor,
    piece: &mut [u8],
) -> Part
    requires { (PrintableNow levels frame v listed counts closed
        × Reached listed.now counts.now closed.now at)
        × ((at.line ≤ length counts.now) × (64 ≤ length piece.old)) }
    ensures { (result.next ≡ next_of counts.now closed.now at)
        × Wrote piece.old 0 (piece_before levels frame v listed counts closed at) piece.new
        result.size }
{
    let line = at.line;
    let start = at.start;
    let point = at.point;
    if line == counts.len() {
        return Part {
            next: Cursor {
                line: line + 1,
                start,
                point: 0,
            },
            size: put_end(piece, line),
        };
    }
    let count = counts[line] as usize;
    if point == count + closed[line] as usize {
        return Part {
            next: Cursor {
                line: line + 1,
                start: start + count,
                point: 0,
            },
            size: text::inner::put_byte(piece, 0, b')'),
        };
    }
    let n = listed[start + around(point, count)];
    let place = put_before(piece, line, point);
    Part {
        next: Cursor {
            line,
            start,
            point: point + 1,
        },
        size: put_place(levels, frame, v, n, piece, place),
    }
}
