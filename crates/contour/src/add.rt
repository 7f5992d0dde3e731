// One contour more, at an edge where one starts.
ghost use Rattle.std.specs.Prelude.{◌≡◌, ◌<◌, true};
ghost use Rattle.network.specs.Edges.{edges as edge_count};
ghost use Rattle.contour_rules.specs.Crossings.{ahead_of, edge_of};
ghost use Rattle.contour_rules.specs.Contours.{waits};
ghost use Rattle.contour.specs.InnerDesk.{pictured, desk_now, desk_before, desk_after};
ghost use Rattle.contour.specs.InnerDesk.{Room, Grows, added, tried};

use crate::inner::Progress;
use crate::walk::Stand;
use crate::{start, walk};
use network::inner::Network;

// Lists the contour that starts at an edge.
fn add_contour(
    network: Network,
    v: u32,
    closes: bool,
    start: Stand,
    list: &mut [u8],
    edges: &mut [u32],
    counts: &mut [u32],
    closed: &mut [u32],
    so_far: Progress,
) -> Progress
    requires { ((waits list.old start.edge ≡ true)
        × ((start.ahead ≡ ahead_of (pictured network v) (edge_of (pictured network v) start.edge))
        × Room (pictured network v) (desk_now list edges counts closed so_far))) }
    ensures { Grows (pictured network.entry v) (added (pictured network.entry v) closes start.edge)
        (desk_before list edges counts closed so_far) (desk_after list edges counts closed result) }
{
    let at = so_far.edges;
    let made = so_far.contours;
    let end = walk::trace(network, v, start, list, edges, at);
    counts[made] = (end - at) as u32;
    closed[made] = u32::from(closes);
    Progress {
        edges: end,
        contours: made + 1,
    }
}

// Lists the contour that starts at edge n, if one does.
pub(crate) fn try_edge(
    network: Network,
    v: u32,
    closes: bool,
    n: usize,
    list: &mut [u8],
    edges: &mut [u32],
    counts: &mut [u32],
    closed: &mut [u32],
    so_far: Progress,
) -> Progress
    requires { ((n < edge_count network.nx network.ny)
        × Room (pictured network v) (desk_now list edges counts closed so_far)) }
    ensures { Grows (pictured network.entry v) (tried (pictured network.entry v) closes n)
        (desk_before list edges counts closed so_far) (desk_after list edges counts closed result) }
{
    if start::starts_here(network, v, closes, list, n) {
        let from = start::stand_at(network, v, n);
        return add_contour(
            network, v, closes, from, list, edges, counts, closed, so_far,
        );
    }
    so_far
}
