// The map point of a crossing: coordinates in a fixed order of operations, each step rounded once.
ghost use Rattle.std.specs.Prelude.{◌≡◌, ◌<◌, ◌≤◌};
ghost use Rattle.network.specs.Limits.{max_side, max_spacing, max_origin};
ghost use Rattle.network.specs.Edges.{Checked};
ghost use Rattle.mapping.specs.Places.{moving, still, row_of, col_of, locate, located_of};

use crate::{Crossing, Located, MapPoint, edge};
use network::inner::Network;
use network::{Edge, Frame};

// The coordinate that moves along an edge.
fn move_along(index: u32, f: f64, spacing: u32, origin: u32) -> f64
    ensures { result ≡ moving index f spacing origin }
{
    ((index as f64) + f) * (spacing as f64) + (origin as f64)
}

// The coordinate that an edge keeps.
fn stay(index: u32, spacing: u32, origin: u32) -> f64
    requires { (index < max_side) × ((spacing ≤ max_spacing) × (origin ≤ max_origin)) }
    ensures { result ≡ still index spacing origin }
{
    (index * spacing + origin) as f64
}

// The map point of a crossing on the edge whose west or south end is at that row and column.
fn locate_crossing(c: Crossing, row: u32, col: u32, frame: Frame) -> Option<Located>
    requires { ((row < max_side) × (col < max_side))
        × ((frame.spacing ≤ max_spacing) × ((frame.west ≤ max_origin) × (frame.south ≤ max_origin))) }
    ensures { result ≡ locate c row col frame }
{
    let spacing = frame.spacing;
    let west = frame.west;
    let south = frame.south;
    match c {
        Crossing::Nowhere => None,
        Crossing::AlongHorizontal(f) => Some(Located::OnHorizontal(MapPoint {
            x: move_along(col, f, spacing, west),
            y: stay(row, spacing, south),
        })),
        Crossing::AlongVertical(f) => Some(Located::OnVertical(MapPoint {
            x: stay(col, spacing, west),
            y: move_along(row, f, spacing, south),
        })),
    }
}

// The row and the column of an edge's west or south end.
fn row_of(e: Edge) -> usize
    ensures { result ≡ row_of e }
{
    match e {
        Edge::Horizontal(row, _) | Edge::Vertical(row, _) => row,
    }
}

fn col_of(e: Edge) -> usize
    ensures { result ≡ col_of e }
{
    match e {
        Edge::Horizontal(_, col) | Edge::Vertical(_, col) => col,
    }
}

// The map point of the edge of a number, if it is crossed.
pub(crate) fn locate_at(levels: &[u32], frame: Frame, v: u32, n: u32) -> Option<Located>
    requires { Checked levels.now frame }
    ensures { result ≡ located_of levels.now frame v n }
{
    let network = Network::new(levels, frame);
    let at = n as usize;
    if at < network.edge_count() {
        let c = edge::crossing_of(levels, frame, v, n);
        let e = network.edge_at(at);
        return locate_crossing(c, row_of(e) as u32, col_of(e) as u32, frame);
    }
    None
}
