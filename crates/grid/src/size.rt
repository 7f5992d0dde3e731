// How many bytes a network's text has, worked out before any of it is written.
ghost use Rattle.std.specs.Prelude.{◌≡◌, ◌*◌, ◌≤◌, length};
ghost use Rattle.text.specs.Number.{show_whole, show_thousandths};
ghost use Rattle.network.specs.Edges.{Checked};
ghost use Rattle.network.specs.Limits.{max_network_level, max_origin, max_side};
ghost use Rattle.grid.specs.Write.{head_lines, text_of, show_network};
ghost use Rattle.grid.specs.InnerSteps.{sizes_of, Quiet, Near};

use network::Frame;

// The bytes of a level: its units, a point and three digits.
fn level_size(v: u32) -> usize
    requires { v ≤ max_network_level }
    ensures { result ≡ length (show_thousandths v) }
{
    match v {
        0..=9_999 => 5,
        10_000..=99_999 => 6,
        _ => 7,
    }
}

// The bytes of levels, each with the byte that follows it.
fn levels_size(levels: &[u32]) -> usize
    requires { (length levels.now ≤ max_side * max_side) × Quiet levels.now }
    ensures { result ≡ sizes_of levels.now }
{
    let mut total = 0;
    for level in levels {
        total += level_size(*level) + 1;
    }
    total
}

// The bytes of a whole number.
fn whole_size(n: u32) -> usize
    requires { n ≤ max_origin }
    ensures { result ≡ length (show_whole n) }
{
    let mut left = n;
    let mut size = 1;
    // Kept: (d) it counts no index: the digits of 0 are one, where `ilog10` has no answer.
    while 10 <= left {
        left /= 10;
        size += 1;
    }
    size
}

// The bytes of the header's keys and line ends.
const HEAD_BYTES: usize = 51;

// The bytes of the header lines.
fn head_size(frame: Frame) -> usize
    requires { Near frame }
    ensures { result ≡ length (text_of (head_lines frame)) }
{
    let sides = whole_size(frame.columns) + whole_size(frame.rows);
    let place = whole_size(frame.west) + whole_size(frame.south);
    HEAD_BYTES + sides + place + whole_size(frame.spacing)
}

// The bytes of a network's text: past each level stands a space or the first byte of the row's end, whose second one is
// a row's own.
pub(crate) fn text_size(levels: &[u32], frame: Frame) -> usize
    requires { Checked levels.now frame }
    ensures { result ≡ length (show_network levels.now frame) }
{
    head_size(frame) + levels_size(levels) + (frame.rows as usize)
}
