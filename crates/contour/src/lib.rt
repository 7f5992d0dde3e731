// The contours of a network at a level: RULES, "Network and contours".
#![tactic(auto)]

ghost use Rattle.std.specs.Prelude.{◌≡◌, ◌≤◌, ◌&&◌, [], ◌∷◌, length, take, nat_le};
ghost use Rattle.refusal.specs.Refusal.{told};
ghost use Rattle.room.specs.Room.{front};
ghost use Rattle.network.specs.Limits.{max_edges};
ghost use Rattle.contour_rules.specs.Contours.{contours_of};
ghost use Rattle.contour.specs.Answers.{answer_from, answer_of, handed_out, lists_before, outcome_left, outcome_due};
ghost use Rattle.contour.specs.InnerDesk.{pictured, RoomForAll};

use crate::inner::Progress;
use network::Frame;
use network::inner::Network;
use network::limits::{MAX_EDGES, MAX_NETWORK_LEVEL};
use refusal::Refusal;

mod add;
mod border;
mod fill;
pub mod inner;
mod start;
mod sweep;
mod walk;

// Writes how many edges are listed and how many contours.
fn put_sizes(sizes: &mut [u32], got: Progress)
    requires { (2 ≤ length sizes.old) × ((got.edges ≤ max_edges) × (got.contours ≤ max_edges)) }
    ensures { sizes.new ≡ front (got.edges ∷ got.contours ∷ []) sizes.old }
{
    sizes[0] = got.edges as u32;
    sizes[1] = got.contours as u32;
}

// Whether n edges, m contours and the two sizes fit.
fn room_for(n: usize, m: usize, edges: usize, counts: usize, closed: usize, sizes: usize) -> bool
    ensures { result ≡ (nat_le n edges && nat_le m counts && nat_le m closed && nat_le 2 sizes) }
{
    n <= edges && m <= counts && m <= closed && 2 <= sizes
}

// Hands what was listed apart out to the caller's buffers, or refuses where one of them is too small.
fn hand_out(
    all_edges: &[u32],
    all_counts: &[u32],
    all_closed: &[u32],
    got: Progress,
    edges: &mut [u32],
    counts: &mut [u32],
    closed: &mut [u32],
    sizes: &mut [u32],
) -> Result<(), Refusal>
    requires { (got.edges ≤ max_edges) × ((got.contours ≤ max_edges)
        × ((got.edges ≤ length all_edges.now) × ((got.contours ≤ length all_counts.now)
        × (got.contours ≤ length all_closed.now)))) }
    ensures { outcome_left (told result) edges counts closed sizes ≡ handed_out 0
        (answer_from (take got.edges all_edges.now)
        (take got.contours all_counts.now) (take got.contours all_closed.now))
        (lists_before edges counts closed sizes) }
{
    let n = got.edges;
    let m = got.contours;
    if !room_for(n, m, edges.len(), counts.len(), closed.len(), sizes.len()) {
        return Err(Refusal::TooLittleRoom);
    }
    edges[..n].copy_from_slice(&all_edges[..n]);
    counts[..m].copy_from_slice(&all_counts[..m]);
    closed[..m].copy_from_slice(&all_closed[..m]);
    put_sizes(sizes, got);
    Ok(())
}

// Lists the contours apart and hands them out: for buffers that may be too small.
fn list_apart(
    network: Network,
    v: u32,
    edges: &mut [u32],
    counts: &mut [u32],
    closed: &mut [u32],
    sizes: &mut [u32],
) -> Result<(), Refusal>
    ensures { outcome_left (told result) edges counts closed sizes ≡ handed_out 0
        (answer_of (contours_of (pictured network.entry v))) (lists_before edges counts closed sizes) }
{
    let mut all_edges = [0u32; MAX_EDGES];
    let mut all_counts = [0u32; MAX_EDGES];
    let mut all_closed = [0u32; MAX_EDGES];
    let got = inner::list_network(network, v, &mut all_edges, &mut all_counts, &mut all_closed);
    hand_out(
        &all_edges,
        &all_counts,
        &all_closed,
        got,
        edges,
        counts,
        closed,
        sizes,
    )
}

// Lists the contours straight into buffers that have room for every edge.
fn list_straight(
    network: Network,
    v: u32,
    edges: &mut [u32],
    counts: &mut [u32],
    closed: &mut [u32],
    sizes: &mut [u32],
)
    requires { (RoomForAll network.nx network.ny edges counts closed × (2 ≤ length sizes.old)) }
    ensures { outcome_left 0 edges counts closed sizes ≡ handed_out 0
        (answer_of (contours_of (pictured network.entry v))) (lists_before edges counts closed sizes) }
{
    let got = inner::list_network(network, v, edges, counts, closed);
    put_sizes(sizes, got);
}

// The contours of a checked network. Where each buffer has room for every edge they are listed straight into the
// buffers.
fn list_out(
    network: Network,
    v: u32,
    edges: &mut [u32],
    counts: &mut [u32],
    closed: &mut [u32],
    sizes: &mut [u32],
) -> Result<(), Refusal>
    ensures { outcome_left (told result) edges counts closed sizes ≡ handed_out 0
        (answer_of (contours_of (pictured network.entry v))) (lists_before edges counts closed sizes) }
{
    let total = network.edge_count();
    if room_for(
        total,
        total,
        edges.len(),
        counts.len(),
        closed.len(),
        sizes.len(),
    ) {
        list_straight(network, v, edges, counts, closed, sizes);
        return Ok(());
    }
    list_apart(network, v, edges, counts, closed, sizes)
}

// The contours at level v of a network of levels, from the south row, west to east. Their edges, one contour after the
// other, go to `edges`, the number of edges of each to `counts`, 1 to `closed` for each that closes and 0 for each that
// doesn't, and to `sizes` how many edges and contours there are.
pub fn contours(
    levels: &[u32],
    frame: Frame,
    v: u32,
    edges: &mut [u32],
    counts: &mut [u32],
    closed: &mut [u32],
    sizes: &mut [u32],
) -> Result<(), Refusal>
    ensures { outcome_left (told result) edges counts closed sizes
        ≡ outcome_due levels frame v edges counts closed sizes }
{
    network::contour_refusal(levels, frame, v, MAX_NETWORK_LEVEL)?;
    list_out(Network::new(levels, frame), v, edges, counts, closed, sizes)
}
