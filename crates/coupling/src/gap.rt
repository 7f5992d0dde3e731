// How far a track is from a movement, by packed columns.
ghost use Rattle.std.specs.Prelude.{◌≡◌, ◌==◌, drop, nat_lt};
ghost use Rattle.coupling_rules.specs.InnerSides.{head_gap};
ghost use Rattle.coupling_rules.specs.InnerPacked.{gap_between, rank_in};
ghost use Rattle.coupling.specs.InnerTurn.{packed_of, class_of, rank_of, from_one, gap_from};

use crate::columns::{Packed, Rank};

// What a movement asks of a track: its class and moment, and the seconds that a track may be away, where it takes one.
#[derive(Clone, Copy)]
pub struct Wanted {
    pub rank: Rank,
    pub window: Option<u64>,
}

// The seconds between a movement and a track; none where the track is of another class or out of reach.
fn gap_between(w: Wanted, track: Rank) -> Option<u64>
    ensures { from_one result
        ≡ gap_between (class_of w.rank) w.rank.moment (from_one w.window) (class_of track) track.moment }
{
    let window = w.window?;
    let seconds = w.rank.moment.abs_diff(track.moment);
    if track.high == w.rank.high && track.low == w.rank.low && seconds <= window {
        Some(seconds)
    } else {
        None
    }
}

// The gap of the first of `list` from `at` on, where there is one.
pub(crate) fn head_gap(list: &[u32], at: usize, tracks: Packed<'_>, w: Wanted) -> Option<u64>
    ensures { from_one result ≡ head_gap (gap_from (packed_of tracks.entry) w) (drop at list.now) }
{
    let j = list.get(at)?;
    gap_between(w, tracks.rank(*j))
}

// Whether track j comes before the movement's class and moment.
pub(crate) fn comes_before(tracks: Packed<'_>, j: u32, w: Wanted) -> bool
    ensures { result ≡ nat_lt (rank_in (packed_of tracks.entry) j) (rank_of w.rank) }
{
    tracks.rank(j) < w.rank
}

// Whether track j is of that class and moment.
pub(crate) fn same_rank(tracks: Packed<'_>, j: u32, rank: Rank) -> bool
    ensures { result ≡ (rank_in (packed_of tracks.entry) j == rank_of rank) }
{
    tracks.rank(j) == rank
}
