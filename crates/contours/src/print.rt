// The sheet on standard output. Each part is put together in a buffer and handed to one write, where it is due: behind
// the part before it. The text of a level's contours goes out in parts of up to 4,096 bytes, so it may have any length.
ghost use Rattle.std.specs.Prelude.{◌≡◌, ◌<◌, ◌≤◌, length, take, slice_index};
ghost use Rattle.wkt.specs.Calls.{network_text};
ghost use Rattle.wkt.specs.InnerParts.{Printable, lines_from};
ghost use Rattle.wkt.specs.Text.{text_of};
ghost use Rattle.contours_steps.specs.Sheet.{line_start, level_line, sheet_of, refused_line, line_begun, overlong_line};
ghost use Rattle.contours_steps.specs.Words.{Gathered};
ghost use Rattle.contours_steps.specs.Drawing.{Accepted, Refused};
ghost use Rattle.contours_steps.specs.InnerDrawing.{Drawable};
ghost use Rattle.channel.specs.Due.{Due, Sends};
ghost use Rattle.channel.specs.Run.{Run};
ghost use Rattle.contours_steps.specs.Answer.{ReadWhole, ReadFailed, ReadFull, Answered, MayWrite};

use contour::inner::Progress;
use contours_steps::inner::put::{put_refused, put_start};
use contours_steps::words::Given;
use network::Frame;
use network::limits::MAX_EDGES;
use said_contours::of_lines;
use wkt::inner::{first, print_part};

// The one write of a part of the sheet, which is due past the `sent` bytes before it. It answers, as each function
// below, whether all was taken; where it was not, nothing more is written.
fn written(levels: &[u32], frame: Frame, asked: &[u32], sent: &mut usize, part: &[u8]) -> bool
    requires drawable { Drawable levels.now frame asked.now }
    requires due { Due (sheet_of levels.now frame asked.now) sent.old part.now }
    ensures { Sends sent.old part.now result sent.new }
{
    channel::inner::write(sent, part)
}

// The sheet of a network and words that are not refused.
pub(crate) fn sheet(
    text: &[u8],
    room: &[u32],
    given: Given,
    levels: &[u32],
    frame: Frame,
    asked: &[u32],
    sent: &mut usize,
) -> bool
    requires read_whole { ReadWhole text.now }
    requires accepted { Accepted text.now given room.now levels.now frame asked.now }
    requires sent_value { sent.old ≡ 0 }
    ensures { Run MayWrite result sent.new }
{
    lines(levels, frame, asked, sent)
}

// Its heading and its lines, to its end.
fn lines(levels: &[u32], frame: Frame, asked: &[u32], sent: &mut usize) -> bool
    requires drawable { Drawable levels.now frame asked.now }
    requires sent_value { sent.old ≡ 0 }
    ensures { Sends 0 (sheet_of levels.now frame asked.now) result sent.new }
{
    if !written(levels, frame, asked, sent, b"level;wkt\r\n") {
        return false;
    }
    for i in 0..asked.len() {
        if !one_level(levels, frame, asked, i, sent) {
            return false;
        }
    }
    true
}

// The line of level number i.
fn one_level(levels: &[u32], frame: Frame, asked: &[u32], i: usize, sent: &mut usize) -> bool
    requires drawable { Drawable levels.now frame asked.now }
    requires i_in_bounds { i < length asked.now }
    requires due { Due (sheet_of levels.now frame asked.now) sent.old
        (level_line levels.now frame (slice_index asked.now i)) }
    ensures { Sends sent.old
        (level_line levels.now frame (slice_index asked.now i)) result sent.new }
{
    let v = asked[i];
    start(levels, frame, asked, i, sent)
        && contours(levels, frame, asked, v, sent)
        && written(levels, frame, asked, sent, b"\r\n")
}

// The level and its semicolon.
fn start(levels: &[u32], frame: Frame, asked: &[u32], i: usize, sent: &mut usize) -> bool
    requires drawable { Drawable levels.now frame asked.now }
    requires i_in_bounds { i < length asked.now }
    requires due { Due (sheet_of levels.now frame asked.now) sent.old (line_start (slice_index asked.now i)) }
    ensures { Sends sent.old (line_start (slice_index asked.now i)) result sent.new }
{
    let mut room = [0u8; 16];
    let n = put_start(&mut room, asked[i]);
    written(levels, frame, asked, sent, &room[..n])
}

// The contours of a network at a level.
fn contours(levels: &[u32], frame: Frame, asked: &[u32], v: u32, sent: &mut usize) -> bool
    requires drawable { Drawable levels.now frame asked.now }
    requires due { Due (sheet_of levels.now frame asked.now) sent.old (network_text levels.now frame v) }
    ensures { Sends sent.old (network_text levels.now frame v) result sent.new }
{
    let mut edges = [0u32; MAX_EDGES];
    let mut counts = [0u32; MAX_EDGES];
    let mut closed = [0u32; MAX_EDGES];
    let nx = frame.columns as usize;
    let ny = frame.rows as usize;
    let got = contour::inner::list_contours(
        levels,
        nx,
        ny,
        v,
        &mut edges,
        &mut counts,
        &mut closed,
    );
    fronts(levels, frame, asked, v, &edges, &counts, &closed, got, sent)
}

// The contours at the fronts of longer buffers; a person is told where there are none, or open ones.
fn fronts(
    levels: &[u32],
    frame: Frame,
    asked: &[u32],
    v: u32,
    edges: &[u32],
    counts: &[u32],
    closed: &[u32],
    got: Progress,
    sent: &mut usize,
) -> bool
    requires drawable { Drawable levels.now frame asked.now }
    requires edges_in_bounds { ((got.edges ≤ length edges.now)
        × ((got.contours ≤ length counts.now) × (got.contours ≤ length closed.now)))
        × Printable levels.now frame v (take got.edges edges.now)
        (take got.contours counts.now) (take got.contours closed.now) }
    requires due { Due (sheet_of levels.now frame asked.now) sent.old (text_of levels.now frame v
        (lines_from (take got.edges edges.now) (take got.contours counts.now)
        (take got.contours closed.now))) }
    ensures { Sends sent.old (text_of levels.now frame v
        (lines_from (take got.edges edges.now) (take got.contours counts.now)
        (take got.contours closed.now))) result sent.new }
{
    let n = got.edges;
    let m = got.contours;
    let went = parts(
        levels,
        frame,
        asked,
        v,
        &edges[..n],
        &counts[..m],
        &closed[..m],
        sent,
    );
    of_lines::drawn(v, levels, &closed[..m]);
    went
}

// The text, part by part.
fn parts(
    levels: &[u32],
    frame: Frame,
    asked: &[u32],
    v: u32,
    edges: &[u32],
    counts: &[u32],
    closed: &[u32],
    sent: &mut usize,
) -> bool
    requires drawable { Drawable levels.now frame asked.now }
    requires printable { Printable levels.now frame v edges.now counts.now closed.now }
    requires due { Due (sheet_of levels.now frame asked.now) sent.old
        (text_of levels.now frame v (lines_from edges.now counts.now closed.now)) }
    ensures { Sends sent.old (text_of levels.now frame v
        (lines_from edges.now counts.now closed.now)) result sent.new }
{
    let mut room = io::buffer();
    let mut at = first();
    // Kept: (d) a turn prints as much as there is room for, and tells where the next begins.
    while at.line <= counts.len() {
        let part = print_part(levels, frame, v, edges, counts, closed, at, &mut room);
        let n = part.size;
        if !written(levels, frame, asked, sent, &room[..n]) {
            return false;
        }
        at = part.next;
    }
    true
}

// The one line of a refusal: of a text and words that are refused, of bytes that can't be read on, and of bytes that
// fill the buffer.
pub(crate) fn refusal(
    text: &[u8],
    asked: &[u32],
    given: Given,
    number: u32,
    line: u64,
    sent: &mut usize,
) -> bool
    requires read_whole { ReadWhole text.now }
    requires refused { Refused text.now given asked.now number line }
    requires sent_value { sent.old ≡ 0 }
    ensures { Run MayWrite result sent.new }
{
    refused(text, asked, given, number, line, sent)
}

pub(crate) fn failure(text: &[u8], asked: &[u32], given: Given, line: u64, sent: &mut usize) -> bool
    requires read_failed { ReadFailed text.now }
    requires gathered { Gathered given asked.now }
    requires line_value { line ≡ line_begun text.now }
    requires sent_value { sent.old ≡ 0 }
    ensures { Run MayWrite result sent.new }
{
    refused(text, asked, given, 17, line, sent)
}

pub(crate) fn overlong(
    text: &[u8],
    asked: &[u32],
    given: Given,
    line: u64,
    sent: &mut usize,
) -> bool
    requires read_full { ReadFull text.now }
    requires gathered { Gathered given asked.now }
    requires line_value { line ≡ overlong_line text.now }
    requires sent_value { sent.old ≡ 0 }
    ensures { Run MayWrite result sent.new }
{
    if line == 0 {
        return refused(text, asked, given, 12, 0, sent);
    }
    refused(text, asked, given, 17, line, sent)
}

fn refused(
    text: &[u8],
    asked: &[u32],
    given: Given,
    number: u32,
    line: u64,
    sent: &mut usize,
) -> bool
    requires answered { Answered text.now given asked.now (refused_line number line) }
    requires sent_value { sent.old ≡ 0 }
    ensures { Run MayWrite result sent.new }
{
    let mut room = [0u8; 64];
    let n = put_refused(&mut room, number, line);
    write(text, asked, given, sent, &room[..n])
}

// The one write of a refusal: no other text than what the reading and the words come to may be handed to it.
fn write(text: &[u8], asked: &[u32], given: Given, sent: &mut usize, out: &[u8]) -> bool
    requires answered { Answered text.now given asked.now out.now }
    requires sent_value { sent.old ≡ 0 }
    ensures { Run MayWrite result sent.new }
{
    channel::inner::write(sent, out)
}
