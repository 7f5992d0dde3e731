// Edges tried one after the other as starts of contours.
ghost use Rattle.std.specs.Prelude.{◌≤◌};
ghost use Rattle.network.specs.Edges.{edges as edge_count};
ghost use Rattle.contour.specs.InnerDesk.{pictured, desk_now, desk_before, desk_after};
ghost use Rattle.contour.specs.InnerDesk.{Room, Sweeps};

use crate::add::try_edge;
use crate::inner::Progress;
use network::inner::Network;

// Tries the edges from one number to before another as starts of contours, those that don't wait passed over.
pub(crate) fn sweep_range(
    network: Network,
    v: u32,
    closes: bool,
    from: usize,
    to: usize,
    list: &mut [u8],
    edges: &mut [u32],
    counts: &mut [u32],
    closed: &mut [u32],
    before: Progress,
) -> Progress
    requires { ((from ≤ to) × ((to ≤ edge_count network.nx network.ny)
        × Room (pictured network v) (desk_now list edges counts closed before))) }
    ensures { Sweeps (pictured network.entry v) closes from to
        (desk_before list edges counts closed before) (desk_after list edges counts closed result) }
{
    let mut so_far = before;
    for n in from..to {
        if list[n] == 1 {
            so_far = try_edge(network, v, closes, n, list, edges, counts, closed, so_far);
        }
    }
    so_far
}
