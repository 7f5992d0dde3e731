// The printed place of a crossing.
ghost use Rattle.std.specs.Prelude.{◌≡◌, ◌<◌, ◌≤◌, true, ◌⊎◌};
ghost use Rattle.network.specs.Limits.{max_side, max_spacing, max_origin};
ghost use Rattle.network.specs.Edges.{Checked, WithinEdge};
ghost use Rattle.network.specs.Crossed.{crossed_edge};
ghost use Rattle.wkt.specs.Places.{offset_of, slide_of, stand_of, spot_of};

use crate::Spot;
use network::{Edge, Frame};

// The spacing in millimetres times num/den, rounded to nearest, halves up.
fn offset(spacing: u32, num: u32, den: u32) -> u32
    requires { (spacing ≤ max_spacing) × ((0 < den) × (num ≤ den)) }
    ensures { result ≡ offset_of spacing num den }
{
    let d = den as u64;
    let length = (1000 * spacing) as u64;
    ((2 * (length * (num as u64)) + d) / (2 * d)) as u32
}

// How far along an edge from level a to level b the level v lies, in millimetres.
fn slide(v: u32, a: u32, b: u32, spacing: u32) -> u32
    requires { (((a < v) × (v ≤ b)) ⊎ ((b < v) × (v ≤ a))) × (spacing ≤ max_spacing) }
    ensures { result ≡ slide_of v a b spacing }
{
    offset(
        spacing,
        network::inner::apart(v, a),
        network::inner::apart(b, a),
    )
}

// A point's coordinate in millimetres.
fn stand(index: usize, spacing: u32, origin: u32) -> u32
    requires { (index < max_side) × ((spacing ≤ max_spacing) × (origin ≤ max_origin)) }
    ensures { result ≡ stand_of index spacing origin }
{
    1000 * ((index as u32) * spacing + origin)
}

// The place of a crossed edge.
pub(crate) fn spot_of(levels: &[u32], frame: Frame, v: u32, e: Edge) -> Spot
    requires { Checked levels.now frame × (WithinEdge frame.columns frame.rows e
        × (crossed_edge levels.now frame.columns v e ≡ true)) }
    ensures { result ≡ spot_of levels.now frame v e }
{
    let nx = frame.columns as usize;
    let ny = frame.rows as usize;
    let spacing = frame.spacing;
    match e {
        Edge::Horizontal(row, col) => {
            let west = network::inner::level(levels, nx, ny, row, col);
            let east = network::inner::level(levels, nx, ny, row, col + 1);
            Spot {
                x: stand(col, spacing, frame.west) + slide(v, west, east, spacing),
                y: stand(row, spacing, frame.south),
            }
        }
        Edge::Vertical(row, col) => {
            let south = network::inner::level(levels, nx, ny, row, col);
            let north = network::inner::level(levels, nx, ny, row + 1, col);
            Spot {
                x: stand(col, spacing, frame.west),
                y: stand(row, spacing, frame.south) + slide(v, south, north, spacing),
            }
        }
    }
}
