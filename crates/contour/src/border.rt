// Open contours, which start on the border.
ghost use Rattle.std.specs.Prelude.{◌+◌, ◌-◌, ◌<◌, false};
ghost use Rattle.network.specs.Edges.{number_of, edges as edge_count};
ghost use Rattle.network.specs.declared.Edge.TheVariants.{Vertical};
ghost use Rattle.contour.specs.InnerDesk.{pictured, desk_now, desk_before, desk_after};
ghost use Rattle.contour.specs.InnerDesk.{Room, Sweeps};

use crate::add::try_edge;
use crate::inner::Progress;
use crate::sweep::sweep_range;
use network::inner::Network;

// Tries the first and the last edge of those from a row up to the next as starts of open contours: the others are not
// on the border.
fn sweep_ends(
    network: Network,
    v: u32,
    row: usize,
    list: &mut [u8],
    edges: &mut [u32],
    counts: &mut [u32],
    closed: &mut [u32],
    before: Progress,
) -> Progress
    requires { ((row + 1 < network.ny)
        × Room (pictured network v) (desk_now list edges counts closed before)) }
    ensures { Sweeps (pictured network.entry v) false
        (number_of network.entry.nx network.entry.ny (Vertical row 0))
        (number_of network.entry.nx network.entry.ny (Vertical (row + 1) 0))
        (desk_before list edges counts closed before) (desk_after list edges counts closed result) }
{
    let west = network.ny * (network.nx - 1) + row * network.nx;
    let first = try_edge(network, v, false, west, list, edges, counts, closed, before);
    try_edge(
        network,
        v,
        false,
        west + (network.nx - 1),
        list,
        edges,
        counts,
        closed,
        first,
    )
}

// The same for all rows: the west and the east border.
fn sweep_sides(
    network: Network,
    v: u32,
    list: &mut [u8],
    edges: &mut [u32],
    counts: &mut [u32],
    closed: &mut [u32],
    before: Progress,
) -> Progress
    requires { Room (pictured network v) (desk_now list edges counts closed before) }
    ensures { Sweeps (pictured network.entry v) false
        (number_of network.entry.nx network.entry.ny (Vertical 0 0))
        (number_of network.entry.nx network.entry.ny (Vertical (network.entry.ny - 1) 0))
        (desk_before list edges counts closed before) (desk_after list edges counts closed result) }
{
    let mut so_far = before;
    for row in 0..network.ny - 1 {
        so_far = sweep_ends(network, v, row, list, edges, counts, closed, so_far);
    }
    so_far
}

// Tries the edges along the rows as starts of open contours: of these the south and the north row are on the border.
fn sweep_rows(
    network: Network,
    v: u32,
    list: &mut [u8],
    edges: &mut [u32],
    counts: &mut [u32],
    closed: &mut [u32],
    none: Progress,
) -> Progress
    requires { Room (pictured network v) (desk_now list edges counts closed none) }
    ensures { Sweeps (pictured network.entry v) false 0 (number_of network.entry.nx network.entry.ny (Vertical 0 0))
        (desk_before list edges counts closed none) (desk_after list edges counts closed result) }
{
    let wide = network.nx - 1;
    let south = sweep_range(
        network, v, false, 0, wide, list, edges, counts, closed, none,
    );
    sweep_range(
        network,
        v,
        false,
        (network.ny - 1) * wide,
        network.ny * wide,
        list,
        edges,
        counts,
        closed,
        south,
    )
}

// Lists the open contours, which start on the border.
pub(crate) fn list_open(
    network: Network,
    v: u32,
    list: &mut [u8],
    edges: &mut [u32],
    counts: &mut [u32],
    closed: &mut [u32],
    none: Progress,
) -> Progress
    requires { Room (pictured network v) (desk_now list edges counts closed none) }
    ensures { Sweeps (pictured network.entry v) false 0 (edge_count network.entry.nx network.entry.ny)
        (desk_before list edges counts closed none) (desk_after list edges counts closed result) }
{
    let along = sweep_rows(network, v, list, edges, counts, closed, none);
    sweep_sides(network, v, list, edges, counts, closed, along)
}
