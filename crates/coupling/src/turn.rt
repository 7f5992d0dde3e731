// One movement's turn. The tracks that are free stand in two lists: those passed, nearest first, from `top` of a stack
// on, and those to come, from `at` of the order on. The best is the first of one of them.
ghost use Rattle.std.specs.Prelude.{◌≡◌, ◌+◌, ◌-◌, ◌<◌, ◌≤◌, ◌++◌, length, drop, slice_index, slice_range};
ghost use Rattle.coupling_rules.specs.InnerSides.{leading, nearer, Pulled, Turned};
ghost use Rattle.coupling_rules.specs.InnerPacked.{rank_in, moment_in};
ghost use Rattle.coupling.specs.InnerTurn.{packed_of, rank_of, from_one, side_of, gap_from};

use crate::columns::Packed;
use crate::gap::{Wanted, comes_before, head_gap, same_rank};

// The end of the run of tracks in `order`, from `at` on, of one class and moment.
fn run_end(order: &[u32], at: usize, tracks: Packed<'_>) -> usize
    requires { at < length order.now }
    ensures { result ≡ at + leading (rank_in (packed_of tracks.entry))
        (rank_in (packed_of tracks.entry) (slice_index order.now at)) (drop at order.now) }
{
    let first = tracks.rank(order[at]);
    for e in at..order.len() {
        if !same_rank(tracks, order[e], first) {
            return e;
        }
    }
    order.len()
}

// Copies the run of `order` from `at` to `end` to the places of `stack` that end at `top`.
fn push(order: &[u32], at: usize, end: usize, stack: &mut [u32], top: usize)
    requires at_le_end { at ≤ end }
    requires end_in_bounds { end ≤ length order.now }
    requires at_bound { end - at ≤ top }
    requires top_in_bounds { top ≤ length stack.old }
    ensures { drop (top - (end - at)) stack.new
        ≡ slice_range order.now at end ++ drop top stack.old }
{
    let from = top - (end - at);
    stack[from..top].copy_from_slice(&order[at..end]);
}

// Pushes the runs that come before the movement's class and moment; the place in `order` of the first that doesn't.
fn pull(
    order: &[u32],
    at: usize,
    stack: &mut [u32],
    top: usize,
    tracks: Packed<'_>,
    w: Wanted,
) -> usize
    requires at_in_bounds { at ≤ length order.now }
    requires order_len_bound { length order.now ≤ top + at }
    requires top_in_bounds { top ≤ length stack.old }
    ensures lower_bound { at ≤ result }
    ensures upper_bound { result ≤ length order.now }
    ensures pulled { Pulled (rank_in (packed_of tracks.entry)) (rank_of w.rank)
        (drop top stack.old) (drop at order.now)
        (drop (top - (result - at)) stack.new) (drop result order.now) }
{
    let mut r = at;
    // Kept: (d) each turn goes on by a whole run, whose end is found in it.
    while r < order.len() && comes_before(tracks, order[r], w) {
        let e = run_end(order, r, tracks);
        push(order, r, e, stack, top - (r - at));
        r = e;
    }
    r
}

// Which list's first a movement takes.
#[derive(Clone, Copy)]
pub enum Side {
    Passed,
    Coming,
}

// The side of the lesser gap, the first where they are equal; none where neither first fits.
fn nearer(passed: Option<u64>, coming: Option<u64>) -> Option<Side>
    ensures { side_of result ≡ nearer (from_one passed) (from_one coming) }
{
    match (passed, coming) {
        (None, None) => None,
        (None, Some(_)) => Some(Side::Coming),
        (Some(a), Some(b)) if b < a => Some(Side::Coming),
        (Some(_), _) => Some(Side::Passed),
    }
}

// Where a turn leaves off, and the track that is taken.
#[derive(Clone, Copy)]
pub struct Left {
    pub at: usize,
    pub top: usize,
    pub track: Option<u32>,
}

// One movement takes its track.
pub(crate) fn turn(
    order: &[u32],
    at: usize,
    stack: &mut [u32],
    top: usize,
    tracks: Packed<'_>,
    w: Wanted,
) -> Left
    requires at_in_bounds { at ≤ length order.now }
    requires order_len_bound { length order.now ≤ top + at }
    requires top_in_bounds { top ≤ length stack.old }
    ensures at_in_bounds_2 { result.at ≤ length order.now }
    ensures order_len_bound_2 { length order.now ≤ result.top + result.at }
    ensures top_in_bounds_2 { result.top ≤ length stack.old }
    ensures turned { Turned (rank_in (packed_of tracks.entry)) (gap_from (packed_of tracks.entry) w)
        (moment_in (packed_of tracks.entry)) (rank_of w.rank) (from_one result.track)
        (drop top stack.old) (drop at order.now)
        (drop result.top stack.new) (drop result.at order.now) }
{
    let r = pull(order, at, stack, top, tracks, w);
    let t = top - (r - at);
    let passed = head_gap(stack, t, tracks, w);
    let coming = head_gap(order, r, tracks, w);
    match nearer(passed, coming) {
        None => Left {
            at: r,
            top: t,
            track: None,
        },
        Some(Side::Passed) => Left {
            at: r,
            top: t + 1,
            track: Some(stack[t]),
        },
        Some(Side::Coming) => Left {
            at: r + 1,
            top: t,
            track: Some(order[r]),
        },
    }
}
