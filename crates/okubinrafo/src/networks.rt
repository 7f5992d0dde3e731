// The contours of a network, listed and printed.
ghost use Rattle.std.specs.Prelude.{◌≡◌};
ghost use Rattle.network.specs.Refusals.{contour_refusal};
ghost use Rattle.contour.specs.Answers.{outcome_left, outcome_due};
ghost use Rattle.wkt.specs.Calls.{network_text, Prints};
ghost use Rattle.okubinrafo.specs.Networks.{frame_of};

use network::Frame;
use refusal::told;

// The contours at a level in thousandths, as lists of edges.
#[unsafe(no_mangle)]
pub extern "C" fn okubinrafo_contours(
    levels: &[u32],
    columns: u32,
    rows: u32,
    spacing: u32,
    west: u32,
    south: u32,
    level: u32,
    edges: &mut [u32],
    counts: &mut [u32],
    closed: &mut [u32],
    sizes: &mut [u32],
) -> u32
    ensures { outcome_left result edges counts closed sizes
        ≡ outcome_due levels (frame_of columns rows spacing west south) level edges counts closed sizes }
{
    let frame = Frame {
        columns,
        rows,
        spacing,
        west,
        south,
    };
    told(contour::contours(levels, frame, level, edges, counts, closed, sizes))
}

// The contours at a level in thousandths as well-known text, and its size.
#[unsafe(no_mangle)]
pub extern "C" fn okubinrafo_print_contours(
    levels: &[u32],
    columns: u32,
    rows: u32,
    spacing: u32,
    west: u32,
    south: u32,
    level: u32,
    text: &mut [u8],
    size: &mut [u32],
) -> u32
    ensures { Prints (contour_refusal levels.now (frame_of columns rows spacing west south) level)
        (network_text levels.now (frame_of columns rows spacing west south) level) text size result }
{
    let frame = Frame {
        columns,
        rows,
        spacing,
        west,
        south,
    };
    told(wkt::print_contours(levels, frame, level, text, size))
}
