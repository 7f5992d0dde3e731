// The waiting list at first.
ghost use Rattle.std.specs.Prelude.{◌≡◌, ◌+◌, ◌<◌, ◌≤◌, length};
ghost use Rattle.network.specs.Edges.{number_of, edges as edge_count};
ghost use Rattle.contour_rules.specs.Contours.{crossed_to};
ghost use Rattle.contour.specs.InnerDesk.{pictured};
ghost use Rattle.contour.specs.InnerFill.{edge_in, row_width, row_count, Fills};

use network::Edge;
use network::inner::Network;

// How many edges a row has, and how many rows of edges there are: up to the next row, or along the row.
fn row_width(up: bool, nx: usize) -> usize
    requires { 2 ≤ nx }
    ensures { result ≡ row_width up nx }
{
    if up { nx } else { nx - 1 }
}

fn row_count(up: bool, ny: usize) -> usize
    requires { 2 ≤ ny }
    ensures { result ≡ row_count up ny }
{
    if up { ny - 1 } else { ny }
}

fn edge_in(up: bool, row: usize, col: usize) -> Edge
    ensures { result ≡ edge_in up row col }
{
    if up {
        Edge::Vertical(row, col)
    } else {
        Edge::Horizontal(row, col)
    }
}

// Fills the waiting list for the edges of a row, the first of which has the number `first`.
fn fill_row(network: Network, v: u32, up: bool, row: usize, first: usize, list: &mut [u8])
    requires { ((row < row_count up network.ny)
        × ((first ≡ number_of network.nx network.ny (edge_in up row 0))
        × (length list.old ≡ edge_count network.nx network.ny))) }
    ensures { Fills (pictured network.entry v) first (first + row_width up network.entry.nx)
        list.old list.new }
{
    for col in 0..row_width(up, network.nx) {
        let crossed = network.crossed_edge(v, edge_in(up, row, col));
        list[first + col] = u8::from(crossed);
    }
}

// The same for all rows of one kind.
fn fill_rows(network: Network, v: u32, up: bool, first: usize, list: &mut [u8])
    requires { (first ≡ number_of network.nx network.ny (edge_in up 0 0))
        × (length list.old ≡ edge_count network.nx network.ny) }
    ensures { Fills (pictured network.entry v) first
        (number_of network.entry.nx network.entry.ny (edge_in up (row_count up network.entry.ny) 0)) list.old list.new }
{
    let width = row_width(up, network.nx);
    let mut n = first;
    for row in 0..row_count(up, network.ny) {
        fill_row(network, v, up, row, n, list);
        n += width;
    }
}

// Puts the crossed edges, and no others, on the waiting list.
pub(crate) fn fill_list(network: Network, v: u32, list: &mut [u8])
    requires { length list.old ≡ edge_count network.nx network.ny }
    ensures { list.new ≡ crossed_to (pictured network.entry v) (edge_count network.entry.nx network.entry.ny) }
{
    fill_rows(network, v, false, 0, list);
    fill_rows(network, v, true, network.ny * (network.nx - 1), list);
}
