// Each movement takes its track, in turn.
ghost use Rattle.std.specs.Prelude.{◌≡◌, ◌<◌, ◌≤◌, length, slice_index, slice_set};
ghost use Rattle.sorting.specs.Sorted.{sorted};
ghost use Rattle.coupling_rules.specs.Limits.{max_flights};
ghost use Rattle.coupling_rules.specs.Rule.{couple, places};
ghost use Rattle.coupling_rules.specs.InnerSides.{Ordered};
ghost use Rattle.coupling_rules.specs.InnerPacked.{moment_in, rank_in};
ghost use Rattle.coupling.specs.InnerTurn.{packed_of, wanted_of, window_for, from_one, gaps_of};

use crate::columns::Packed;
use crate::gap::Wanted;
use crate::limits::{AEROPLANE_WINDOW, HELICOPTER_WINDOW};
use crate::order::in_order;
use crate::turn::turn;

// Movements as they ask for tracks: packed, with their classes and circuits.
#[derive(Clone, Copy)]
pub struct Asked<'p, 'a> {
    pub packed: Packed<'p>,
    pub classes: &'a [u32],
    pub circuits: &'a [u32],
}

// The number at place i of a column; 0 past the last.
fn value_at(column: &[u32], i: u32) -> u32
    ensures { result ≡ slice_index column.now i }
{
    column.get(i as usize).copied().unwrap_or(0)
}

// The seconds that a track may be away; none for an aeroplane's circuit.
fn window(class: u32, circuit: u32) -> Option<u64>
    ensures { result ≡ window_for class circuit }
{
    match (class, circuit) {
        (0, 0) => Some(AEROPLANE_WINDOW),
        (0, _) => None,
        _ => Some(HELICOPTER_WINDOW),
    }
}

// What movement i asks of a track.
fn wanted(movements: Asked<'_, '_>, i: u32) -> Wanted
    ensures { result
        ≡ wanted_of (packed_of movements.entry.packed) movements.entry.classes.now movements.entry.circuits.now i }
{
    Wanted {
        rank: movements.packed.rank(i),
        window: window(
            value_at(movements.classes, i),
            value_at(movements.circuits, i),
        ),
    }
}

// A track is written at its movement's place, counted from 1; 0 for none.
fn put(answers: &mut [u32], i: u32, track: Option<u32>)
    requires i_in_bounds { i < length answers.old }
    requires track_bound { from_one track ≤ 4294967295 }
    ensures { answers.new ≡ slice_set answers.old i (from_one track) }
{
    answers[i as usize] = match track {
        Some(j) => j + 1,
        None => 0,
    };
}

// Each movement of `turns` takes its track.
fn pair(
    movements: Asked<'_, '_>,
    turns: &[u32],
    tracks: Packed<'_>,
    order: &[u32],
    stack: &mut [u32],
    answers: &mut [u32],
)
    requires order_in_bounds { length order.now ≤ length stack.old }
    requires ordered { Ordered (rank_in (packed_of tracks)) (rank_in (packed_of movements.packed)) turns.now order.now
        (places (length order.now)) answers.old }
    ensures { answers.new
        ≡ couple (gaps_of (packed_of tracks.entry) movements.entry) (moment_in (packed_of tracks.entry)) turns.now
        (places (length order.now)) answers.old }
{
    let mut at = 0;
    let mut top = stack.len();
    for i in turns {
        let w = wanted(movements, *i);
        let left = turn(order, at, stack, top, tracks, w);
        put(answers, *i, left.track);
        at = left.at;
        top = left.top;
    }
}

// Each movement takes its track, by moment and then by place.
pub(crate) fn couple_in(
    movements: Asked<'_, '_>,
    turns: &mut [u32],
    tracks: Packed<'_>,
    order: &mut [u32],
    stack: &mut [u32],
    answers: &mut [u32],
)
    requires turns_len_bound { length turns.old ≤ max_flights }
    requires order_len_bound { length order.old ≤ max_flights }
    requires max_flights_in_bounds { max_flights ≤ length stack.old }
    requires turns_in_bounds { length turns.old ≤ length answers.old }
    ensures { answers.new
        ≡ couple (gaps_of (packed_of tracks.entry) movements.entry) (moment_in (packed_of tracks.entry))
        (sorted (moment_in (packed_of movements.entry.packed)) (places (length turns.old)))
        (places (length order.old)) answers.old }
{
    in_order(turns, stack, movements.packed);
    in_order(order, stack, tracks);
    pair(movements, turns, tracks, order, stack, answers);
}
