// The contours of a network that has passed its check.
ghost use Rattle.std.specs.Prelude.{◌≡◌, ◌≤◌, length};
ghost use Rattle.network.specs.Limits.{max_edges};
ghost use Rattle.network.specs.Edges.{Sized, edges as edge_count};
ghost use Rattle.contour_rules.specs.Contours.{crossed_to, all_listed, contours_of};
ghost use Rattle.contour.specs.InnerDesk.{pictured, picture_before, desk_now, desk_before, desk_after, none_yet};
ghost use Rattle.contour.specs.InnerDesk.{Room, Holds, ListedIn, RoomForAll};

use crate::{border, fill, sweep};
use network::inner::Network;
use network::limits::MAX_EDGES;

// How many edges are listed, and how many contours.
#[derive(Clone, Copy)]
pub struct Progress {
    pub edges: usize,
    pub contours: usize,
}

// Lists the open contours and then the closed ones, where the crossed edges wait.
fn list_all(
    network: Network,
    v: u32,
    list: &mut [u8],
    edges: &mut [u32],
    counts: &mut [u32],
    closed: &mut [u32],
) -> Progress
    requires { ((list.old ≡ crossed_to (pictured network v) (edge_count network.nx network.ny))
        × Room (pictured network v) (desk_now list edges counts closed none_yet)) }
    ensures { Holds (all_listed (pictured network.entry v)) (desk_before list edges counts closed none_yet)
        (desk_after list edges counts closed result)
        × Room (pictured network.entry v) (desk_after list edges counts closed result) }
{
    let none = Progress {
        edges: 0,
        contours: 0,
    };
    let open = border::list_open(network, v, list, edges, counts, closed, none);
    let total = network.edge_count();
    sweep::sweep_range(
        network, v, true, 0, total, list, edges, counts, closed, open,
    )
}

// Lists all contours, whatever stood on the waiting list.
fn list_afresh(
    network: Network,
    v: u32,
    list: &mut [u8],
    edges: &mut [u32],
    counts: &mut [u32],
    closed: &mut [u32],
) -> Progress
    requires { ((length list.old ≡ edge_count network.nx network.ny)
        × RoomForAll network.nx network.ny edges counts closed) }
    ensures { ListedIn (contours_of (pictured network.entry v)) edges counts closed result }
{
    fill::fill_list(network, v, list);
    list_all(network, v, list, edges, counts, closed)
}

// The same with the front of a waiting list that is long enough for every network.
fn list_with(
    network: Network,
    v: u32,
    list: &mut [u8],
    edges: &mut [u32],
    counts: &mut [u32],
    closed: &mut [u32],
) -> Progress
    requires { ((max_edges ≤ length list.old) × RoomForAll network.nx network.ny edges counts closed) }
    ensures { ListedIn (contours_of (pictured network.entry v)) edges counts closed result }
{
    let total = network.edge_count();
    list_afresh(network, v, &mut list[..total], edges, counts, closed)
}

// Lists all contours at the fronts of buffers that have room for every edge: the edges of one contour after the other,
// and for each how many edges it has and 1 if it closes.
pub(crate) fn list_network(
    network: Network,
    v: u32,
    edges: &mut [u32],
    counts: &mut [u32],
    closed: &mut [u32],
) -> Progress
    requires { RoomForAll network.nx network.ny edges counts closed }
    ensures { ListedIn (contours_of (pictured network.entry v)) edges counts closed result }
{
    let mut list = [0u8; MAX_EDGES];
    list_with(network, v, &mut list, edges, counts, closed)
}

// The same of a network's levels, nx columns and ny rows of them.
pub fn list_contours(
    levels: &[u32],
    nx: usize,
    ny: usize,
    v: u32,
    edges: &mut [u32],
    counts: &mut [u32],
    closed: &mut [u32],
) -> Progress
    requires { Sized levels.now nx ny × RoomForAll nx ny edges counts closed }
    ensures { ListedIn (contours_of (picture_before levels nx ny v)) edges counts closed result }
{
    list_network(Network { levels, nx, ny }, v, edges, counts, closed)
}
