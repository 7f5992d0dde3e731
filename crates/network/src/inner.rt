// The points and edges of a network that has passed its check.
ghost use Rattle.std.specs.Prelude.{◌≡◌, ◌<◌};
ghost use Rattle.network.specs.Edges.{Sides, Sized, Checked, level_at, edges, edge_at, number_of, WithinEdge};
ghost use Rattle.network.specs.Crossed.{inside_of, crossed_edge, crossed_at, distance};

use crate::{Edge, Frame};

// A network with nx columns and ny rows of points, and a level for each of them.
#[derive(Clone, Copy)]
pub struct Network<'a> {
    pub levels: &'a [u32],
    pub nx: usize,
    pub ny: usize,
    pub ghost sized: { Sized levels.now nx ny },
}

impl<'a> Network<'a> {
    // The network of these levels in this frame.
    pub fn new(levels: &'a [u32], frame: Frame) -> Network<'a>
        requires { Checked levels.now frame }
        ensures levels_are { result.levels.now ≡ levels.now }
        ensures nx_is { result.nx ≡ frame.columns }
        ensures ny_is { result.ny ≡ frame.rows }
    {
        Network {
            levels,
            nx: frame.columns as usize,
            ny: frame.rows as usize,
        }
    }

    // The level of a point.
    pub fn level(self, row: usize, col: usize) -> u32
        requires { (row < self.ny) × (col < self.nx) }
        ensures { result ≡ level_at self.entry.levels.now self.entry.nx row col }
    {
        level(self.levels, self.nx, self.ny, row, col)
    }

    // Whether the point is in: its level is at least v.
    pub fn inside(self, v: u32, row: usize, col: usize) -> bool
        requires { (row < self.ny) × (col < self.nx) }
        ensures { result ≡ inside_of self.entry.levels.now self.entry.nx v row col }
    {
        v <= self.level(row, col)
    }

    // Whether one end of the edge is in and the other out.
    pub fn crossed_edge(self, v: u32, e: Edge) -> bool
        requires { WithinEdge self.nx self.ny e }
        ensures { result ≡ crossed_edge self.entry.levels.now self.entry.nx v e }
    {
        match e {
            Edge::Horizontal(row, col) => self.inside(v, row, col) != self.inside(v, row, col + 1),
            Edge::Vertical(row, col) => self.inside(v, row, col) != self.inside(v, row + 1, col),
        }
    }

    // How many edges there are.
    pub fn edge_count(self) -> usize
        ensures { result ≡ edges self.entry.nx self.entry.ny }
    {
        edge_count(self.nx, self.ny)
    }

    // The edge of a number.
    pub fn edge_at(self, n: usize) -> Edge
        ensures value { result ≡ edge_at self.entry.nx self.entry.ny n }
        ensures within { n < edges self.entry.nx self.entry.ny → WithinEdge self.entry.nx self.entry.ny result }
    {
        edge_at(self.nx, self.ny, n)
    }

    // The number of an edge.
    pub fn number_of(self, e: Edge) -> usize
        requires { WithinEdge self.nx self.ny e }
        ensures { result ≡ number_of self.entry.nx self.entry.ny e }
    {
        number_of(self.nx, self.ny, e)
    }

    // Whether the edge of that number is crossed.
    pub fn crossed_at(self, v: u32, n: usize) -> bool
        requires { n < edges self.nx self.ny }
        ensures { result ≡ crossed_at self.entry.levels.now self.entry.nx self.entry.ny v n }
    {
        self.crossed_edge(v, self.edge_at(n))
    }
}

// The level of a point.
pub fn level(levels: &[u32], nx: usize, ny: usize, row: usize, col: usize) -> u32
    requires { Sized levels.now nx ny × ((row < ny) × (col < nx)) }
    ensures { result ≡ level_at levels.now nx row col }
{
    let at = row * nx + col;
    levels[at]
}

// How many edges nx columns and ny rows of points have.
pub fn edge_count(nx: usize, ny: usize) -> usize
    requires { Sides nx ny }
    ensures { result ≡ edges nx ny }
{
    ny * (nx - 1) + (ny - 1) * nx
}

// The edge of a number.
pub fn edge_at(nx: usize, ny: usize, n: usize) -> Edge
    requires { Sides nx ny }
    ensures { result ≡ edge_at nx ny n }
{
    let horizontals = ny * (nx - 1);
    if n < horizontals {
        return Edge::Horizontal(n / (nx - 1), n % (nx - 1));
    }
    let k = n - horizontals;
    Edge::Vertical(k / nx, k % nx)
}

// The number of an edge.
pub fn number_of(nx: usize, ny: usize, e: Edge) -> usize
    requires { Sides nx ny × WithinEdge nx ny e }
    ensures { result ≡ number_of nx ny e }
{
    match e {
        Edge::Horizontal(row, col) => row * (nx - 1) + col,
        Edge::Vertical(row, col) => ny * (nx - 1) + row * nx + col,
    }
}

// How far apart two levels are.
pub fn apart(a: u32, b: u32) -> u32
    ensures { result ≡ distance a b }
{
    a.abs_diff(b)
}
