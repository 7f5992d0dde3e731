// Printing of listed contours: part by part into any room, and how long the whole text is.
ghost use Rattle.std.specs.Prelude.{◌≡◌, length};
ghost use Rattle.wkt.specs.InnerParts.{Reached, PrintableNow, PrintedIn, text_before};

use crate::put::put_step;
use crate::{Cursor, Part};
use network::Frame;

// Where the text begins.
pub fn first() -> Cursor
    ensures { (result.line ≡ 0) × ((result.start ≡ 0) × (result.point ≡ 0)) }
{
    Cursor {
        line: 0,
        start: 0,
        point: 0,
    }
}

// As many pieces of the text from a cursor on as have room.
pub fn print_part(
    levels: &[u32],
    frame: Frame,
    v: u32,
    edges: &[u32],
    counts: &[u32],
    closed: &[u32],
    from: Cursor,
    room: &mut [u8],
) -> Part
    requires { PrintableNow levels frame v edges counts closed
        × Reached edges.now counts.now closed.now from }
    ensures { PrintedIn levels frame v edges counts closed from room result }
{
    let mut piece = [0u8; 64];
    let mut at = from;
    let mut size = 0;
    // Kept: (d) what is printed next, and where, is found in each step.
    while at.line <= counts.len() {
        let step = put_step(levels, frame, v, edges, counts, closed, at, &mut piece);
        let more = step.size;
        if room.len() - size < more {
            return Part { next: at, size };
        }
        size = text::inner::put_text(room, size, &piece[..more]);
        at = step.next;
    }
    Part { next: at, size }
}

// How many bytes the whole text has.
pub fn text_size(
    levels: &[u32],
    frame: Frame,
    v: u32,
    edges: &[u32],
    counts: &[u32],
    closed: &[u32],
) -> usize
    requires { PrintableNow levels frame v edges counts closed }
    ensures { result ≡ length (text_before levels frame v edges counts closed) }
{
    let mut piece = [0u8; 64];
    let mut at = first();
    let mut size = 0;
    // Kept: (d) what is printed next, and where, is found in each step.
    while at.line <= counts.len() {
        let step = put_step(levels, frame, v, edges, counts, closed, at, &mut piece);
        size += step.size;
        at = step.next;
    }
    size
}
