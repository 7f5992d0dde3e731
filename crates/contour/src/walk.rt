// A line walked from square to square.
ghost use Rattle.std.specs.Prelude.{◌≡◌, ◌<◌, ◌≤◌};
ghost use Rattle.network.specs.Limits.{max_side};
ghost use Rattle.network.specs.Edges.{WithinEdge};
ghost use Rattle.contour_rules.specs.Picture.{cut_of};
ghost use Rattle.contour_rules.specs.Squares.{WithinSquare, turn, corner, exit_of, side_edge};
ghost use Rattle.contour_rules.specs.Crossings.{north_of, south_of, west_of, east_of, beyond, across_of};
ghost use Rattle.contour_rules.specs.Contours.{waits};
ghost use Rattle.contour.specs.InnerWalk.{WithinAhead, step_edge, step_ahead, Traceable, Traced};
ghost use Rattle.contour.specs.InnerDesk.{pictured};

use contour_rules::{Side, Square};
use network::Edge;
use network::inner::Network;

// The next side counterclockwise.
fn turned(s: Side) -> Side
    ensures { result ≡ turn s }
{
    match s {
        Side::South => Side::East,
        Side::East => Side::North,
        Side::North => Side::West,
        Side::West => Side::South,
    }
}

// Whether the corner to the left of who enters by `s` is in.
fn corner_in(network: Network, v: u32, row: usize, col: usize, s: Side) -> bool
    requires { WithinSquare network.nx network.ny row col }
    ensures { result ≡ corner (pictured network.entry v) row col s }
{
    match s {
        Side::South => network.inside(v, row, col),
        Side::East => network.inside(v, row, col + 1),
        Side::North => network.inside(v, row + 1, col + 1),
        Side::West => network.inside(v, row + 1, col),
    }
}

// Whether a saddle of the square cuts off its two out corners.
fn cuts_out(network: Network, v: u32, row: usize, col: usize) -> bool
    requires { WithinSquare network.nx network.ny row col }
    ensures { result ≡ cut_of network.entry.levels.now network.entry.nx v row col }
{
    let south = u64::from(network.level(row, col)) + u64::from(network.level(row, col + 1));
    let north = u64::from(network.level(row + 1, col + 1)) + u64::from(network.level(row + 1, col));
    4 * u64::from(v) <= south + north
}

// The side by which a line leaves the square that it entered by `s`. The corners are added up at a saddle only.
fn exit_side(network: Network, v: u32, row: usize, col: usize, s: Side) -> Side
    requires { WithinSquare network.nx network.ny row col }
    ensures { result ≡ exit_of (pictured network.entry v) row col s }
{
    let on_right = turned(s);
    let across = turned(on_right);
    let on_left = turned(across);
    let right = corner_in(network, v, row, col, across);
    let left = corner_in(network, v, row, col, on_left);
    match (right, left) {
        (true, true) => on_right,
        (true, false) => {
            if cuts_out(network, v, row, col) {
                on_right
            } else {
                on_left
            }
        }
        (false, true) => across,
        (false, false) => on_left,
    }
}

// The square's edge at a side.
fn side_edge(row: usize, col: usize, s: Side) -> Edge
    requires { (row < max_side) × (col < max_side) }
    ensures { result ≡ side_edge row col s }
{
    match s {
        Side::South => Edge::Horizontal(row, col),
        Side::East => Edge::Vertical(row, col + 1),
        Side::North => Edge::Horizontal(row + 1, col),
        Side::West => Edge::Vertical(row, col),
    }
}

// What lies north, south, west and east of an edge.
fn north_of(ny: usize, row: usize, col: usize) -> Option<Square>
    requires { row ≤ max_side }
    ensures { result ≡ north_of ny row col }
{
    if row + 1 < ny {
        return Some(Square {
            row,
            col,
            side: Side::South,
        });
    }
    None
}

fn south_of(row: usize, col: usize) -> Option<Square>
    ensures { result ≡ south_of row col }
{
    if row == 0 {
        return None;
    }
    Some(Square {
        row: row - 1,
        col,
        side: Side::North,
    })
}

fn west_of(row: usize, col: usize) -> Option<Square>
    ensures { result ≡ west_of row col }
{
    if col == 0 {
        return None;
    }
    Some(Square {
        row,
        col: col - 1,
        side: Side::East,
    })
}

fn east_of(nx: usize, row: usize, col: usize) -> Option<Square>
    requires { col ≤ max_side }
    ensures { result ≡ east_of nx row col }
{
    if col + 1 < nx {
        return Some(Square {
            row,
            col,
            side: Side::West,
        });
    }
    None
}

// What lies beyond a side of the square.
fn beyond_side(network: Network, row: usize, col: usize, s: Side) -> Option<Square>
    requires { (row < max_side) × (col < max_side) }
    ensures { result ≡ beyond network.entry.nx network.entry.ny row col s }
{
    match s {
        Side::South => south_of(row, col),
        Side::East => east_of(network.nx, row, col + 1),
        Side::North => north_of(network.ny, row + 1, col),
        Side::West => west_of(row, col),
    }
}

// Across an edge with its west or south end on the left, or on the right.
pub(crate) fn across(network: Network, left: bool, e: Edge) -> Option<Square>
    requires { WithinEdge network.nx network.ny e }
    ensures { result ≡ across_of network.entry.nx network.entry.ny left e }
{
    match e {
        Edge::Horizontal(row, col) => {
            if left {
                return north_of(network.ny, row, col);
            }
            south_of(row, col)
        }
        Edge::Vertical(row, col) => {
            if left {
                return west_of(row, col);
            }
            east_of(network.nx, row, col)
        }
    }
}

// An edge by its number, and what lies ahead of it.
#[derive(Clone, Copy)]
pub struct Stand {
    pub edge: usize,
    pub ahead: Option<Square>,
}

// Through the square ahead to the edge by which the line leaves it. Outside the network stands the number of edges,
// which is no edge's.
// Kept: (a) that number; `next_number` of contour_rules, which the theorems on lines speak of, has it too.
fn step(network: Network, v: u32, ahead: Option<Square>) -> Stand
    requires { WithinAhead network.nx network.ny ahead }
    ensures { (result.edge ≡ step_edge (pictured network.entry v) ahead)
        × (result.ahead ≡ step_ahead (pictured network.entry v) ahead) }
{
    match ahead {
        Some(Square { row, col, side }) => {
            let exit = exit_side(network, v, row, col, side);
            let edge = network.number_of(side_edge(row, col, exit));
            Stand {
                edge,
                ahead: beyond_side(network, row, col, exit),
            }
        }
        None => Stand {
            edge: network.edge_count(),
            ahead: None,
        },
    }
}

// Whether the edge waits: it is crossed and no contour has it yet. A number past the list is no edge.
pub(crate) fn still_waits(list: &[u8], n: usize) -> bool
    ensures { result ≡ waits list.now n }
{
    n < list.len() && list[n] == 1
}

// Writes the contour from an edge on into `edges` from the place `from` on, and takes its edges from the waiting list.
// Returns the place after it.
pub(crate) fn trace(
    network: Network,
    v: u32,
    start: Stand,
    list: &mut [u8],
    edges: &mut [u32],
    from: usize,
) -> usize
    requires { Traceable (pictured network v) list.old edges.old from start.edge start.ahead }
    ensures { Traced (pictured network.entry v) list.old edges.old from
        start.edge result list.new edges.new }
{
    let mut here = start;
    let mut at = from;
    // Kept: (d) where the line goes on is found in each step.
    while still_waits(list, here.edge) {
        let n = here.edge;
        list[n] = 0;
        edges[at] = n as u32;
        at += 1;
        let ahead = here.ahead;
        here = step(network, v, ahead);
    }
    at
}
