// The crossing of an edge: one rounded division.
ghost use Rattle.std.specs.Prelude.{◌≡◌, ◌<◌, ◌≤◌, true, ◌⊎◌};
ghost use Rattle.network.specs.Edges.{Checked, WithinEdge};
ghost use Rattle.network.specs.Crossed.{crossed_edge};
ghost use Rattle.mapping.specs.Fractions.{Rounded, fraction_of, along_edge, crossing_of};

use crate::Crossing;
use network::inner::Network;
use network::{Edge, Frame};

// num / den, rounded once.
fn fraction(num: u32, den: u32) -> f64
    requires { (0 < den) × (num ≤ den) }
    ensures { Rounded num den result }
{
    (num as f64) / (den as f64)
}

// How far along an edge from level a to level b the level v lies; one of the two is at least v, the other is less.
fn along(v: u32, a: u32, b: u32) -> f64
    requires { ((a < v) × (v ≤ b)) ⊎ ((b < v) × (v ≤ a)) }
    ensures { result ≡ fraction_of v a b }
{
    fraction(v.abs_diff(a), b.abs_diff(a))
}

// The crossing of an edge that is crossed.
fn along_edge(network: Network, v: u32, e: Edge) -> Crossing
    requires { WithinEdge network.nx network.ny e × (crossed_edge network.levels.now network.nx v e ≡ true) }
    ensures { result ≡ along_edge network.entry.levels.now network.entry.nx v e }
{
    match e {
        Edge::Horizontal(row, col) => {
            let west = network.level(row, col);
            let east = network.level(row, col + 1);
            Crossing::AlongHorizontal(along(v, west, east))
        }
        Edge::Vertical(row, col) => {
            let south = network.level(row, col);
            let north = network.level(row + 1, col);
            Crossing::AlongVertical(along(v, south, north))
        }
    }
}

// The crossing of the edge of a number, none where it is no edge or is not crossed.
pub(crate) fn crossing_of(levels: &[u32], frame: Frame, v: u32, n: u32) -> Crossing
    requires { Checked levels.now frame }
    ensures { result ≡ crossing_of levels.now frame v n }
{
    let network = Network::new(levels, frame);
    let at = n as usize;
    if at < network.edge_count() && network.crossed_at(v, at) {
        return along_edge(network, v, network.edge_at(at));
    }
    Crossing::Nowhere
}
