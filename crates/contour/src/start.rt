// Where contours start.
ghost use Rattle.std.specs.Prelude.{◌≡◌, ◌<◌, ◌&&◌, ◌||◌};
ghost use Rattle.network.specs.Edges.{WithinEdge, edges as edge_count};
ghost use Rattle.contour_rules.specs.Crossings.{first_in, ahead_of, edge_of, enters_at};
ghost use Rattle.contour_rules.specs.Contours.{waits};
ghost use Rattle.contour.specs.InnerDesk.{pictured};

use crate::walk;
use crate::walk::Stand;
use network::Edge;
use network::inner::Network;

// Whether the west or south end of the edge is in.
fn first_in(network: Network, v: u32, e: Edge) -> bool
    requires { WithinEdge network.nx network.ny e }
    ensures { result ≡ first_in (pictured network.entry v) e }
{
    match e {
        Edge::Horizontal(row, col) | Edge::Vertical(row, col) => network.inside(v, row, col),
    }
}

// The edge of a number, and what lies ahead of it.
pub(crate) fn stand_at(network: Network, v: u32, n: usize) -> Stand
    requires { n < edge_count network.nx network.ny }
    ensures { (result.edge ≡ n)
        × (result.ahead ≡ ahead_of (pictured network.entry v) (edge_of (pictured network.entry v) n)) }
{
    let e = network.edge_at(n);
    let left = first_in(network, v, e);
    Stand {
        edge: n,
        ahead: walk::across(network, left, e),
    }
}

// Whether a contour enters the network at the edge of that number.
fn enters_at(network: Network, v: u32, n: usize) -> bool
    requires { n < edge_count network.nx network.ny }
    ensures { result ≡ enters_at (pictured network.entry v) n }
{
    let e = network.edge_at(n);
    network.crossed_edge(v, e) && walk::across(network, !first_in(network, v, e), e).is_none()
}

// Whether a contour starts at the edge, which must wait: an open one where it enters, a closed one at any.
pub(crate) fn starts_here(network: Network, v: u32, closes: bool, list: &[u8], n: usize) -> bool
    requires { n < edge_count network.nx network.ny }
    ensures { result
        ≡ ((closes || enters_at (pictured network.entry v) n) && waits list.now n) }
{
    walk::still_waits(list, n) && (closes || enters_at(network, v, n))
}
