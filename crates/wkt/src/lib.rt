// Contours printed as well-known text: RULES, "Files and the report program", last paragraph.
#![tactic(auto)]

ghost use Rattle.std.specs.Prelude.{◌≤◌, length, take};
ghost use Rattle.refusal.specs.Refusal.{told};
ghost use Rattle.network.specs.Edges.{Checked};
ghost use Rattle.network.specs.Refusals.{contour_refusal};
ghost use Rattle.wkt.specs.Text.{text_of};
ghost use Rattle.wkt.specs.Calls.{network_text, Prints};
ghost use Rattle.wkt.specs.InnerParts.{lines_from, Printable, PrintableNow, text_before};

use contour::inner::Progress;
use network::Frame;
use network::limits::{MAX_EDGES, MAX_NETWORK_LEVEL};
use refusal::Refusal;

pub mod inner;
mod place;
mod put;

// A printed place in whole millimetres east and north.
#[derive(Clone, Copy)]
pub struct Spot {
    pub x: u32,
    pub y: u32,
}

// What is printed next: the line, the place of its first edge among the listed edges, and its point.
// The line past the last ends the text, and the one past that is the end.
#[derive(Clone, Copy)]
pub struct Cursor {
    pub line: usize,
    pub start: usize,
    pub point: usize,
}

// What has been printed: how many bytes, and what comes next.
#[derive(Clone, Copy)]
pub struct Part {
    pub next: Cursor,
    pub size: usize,
}

// The text of listed contours and its size, where there is room for them.
fn print_listed(
    levels: &[u32],
    frame: Frame,
    v: u32,
    edges: &[u32],
    counts: &[u32],
    closed: &[u32],
    text: &mut [u8],
    size: &mut [u32],
) -> Result<(), Refusal>
    requires { PrintableNow levels frame v edges counts closed }
    ensures { Prints 0 (text_before levels frame v edges counts closed) text size (told result) }
{
    let needed = inner::text_size(levels, frame, v, edges, counts, closed);
    if text.len() < needed || size.is_empty() {
        return Err(Refusal::TooLittleRoom);
    }
    inner::print_part(
        levels,
        frame,
        v,
        edges,
        counts,
        closed,
        inner::first(),
        text,
    );
    size[0] = needed as u32;
    Ok(())
}

// The same of contours at the fronts of longer buffers.
fn print_fronts(
    levels: &[u32],
    frame: Frame,
    v: u32,
    edges: &[u32],
    counts: &[u32],
    closed: &[u32],
    got: Progress,
    text: &mut [u8],
    size: &mut [u32],
) -> Result<(), Refusal>
    requires { ((got.edges ≤ length edges.now)
        × ((got.contours ≤ length counts.now) × (got.contours ≤ length closed.now)))
        × Printable levels.now frame v (take got.edges edges.now) (take got.contours counts.now)
        (take got.contours closed.now) }
    ensures { Prints 0
        (text_of levels.now frame v (lines_from (take got.edges edges.now)
        (take got.contours counts.now) (take got.contours closed.now))) text size (told result) }
{
    let n = got.edges;
    let m = got.contours;
    print_listed(
        levels,
        frame,
        v,
        &edges[..n],
        &counts[..m],
        &closed[..m],
        text,
        size,
    )
}

// The text of the contours of a network that is not refused.
fn print_checked(
    levels: &[u32],
    frame: Frame,
    v: u32,
    text: &mut [u8],
    size: &mut [u32],
) -> Result<(), Refusal>
    requires { Checked levels.now frame }
    ensures { Prints 0 (network_text levels.now frame v) text size (told result) }
{
    let mut edges = [0u32; MAX_EDGES];
    let mut counts = [0u32; MAX_EDGES];
    let mut closed = [0u32; MAX_EDGES];
    let nx = frame.columns as usize;
    let ny = frame.rows as usize;
    let got = contour::inner::list_contours(
        levels,
        nx,
        ny,
        v,
        &mut edges,
        &mut counts,
        &mut closed,
    );
    print_fronts(levels, frame, v, &edges, &counts, &closed, got, text, size)
}

// The contours of a network at level v as well-known text, with the size of the text in bytes.
pub fn print_contours(
    levels: &[u32],
    frame: Frame,
    v: u32,
    text: &mut [u8],
    size: &mut [u32],
) -> Result<(), Refusal>
    ensures { Prints (contour_refusal levels.now frame v)
        (network_text levels.now frame v) text size (told result) }
{
    network::contour_refusal(levels, frame, v, MAX_NETWORK_LEVEL)?;
    print_checked(levels, frame, v, text, size)
}
