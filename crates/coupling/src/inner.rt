// The coupling behind the checks, over lent columns and over our own program's tables. What is asked here, callers have
// found.
ghost use Rattle.std.specs.Prelude.{◌≡◌, ◌+◌, ◌*◌, ◌≤◌, true, length};
ghost use Rattle.room.specs.Room.{front};
ghost use Rattle.sorting.specs.Sorted.{sorted};
ghost use Rattle.coupling_rules.specs.Limits.{max_flights};
ghost use Rattle.coupling_rules.specs.Rule.{couple, places, tracks_for};
ghost use Rattle.coupling_rules.specs.Refusals.{flights_fit, movements_fit};
ghost use Rattle.coupling_rules.specs.Tables.{column_in, flights_in, movements_in};
ghost use Rattle.coupling_rules.specs.InnerPacked.{moment_in};
ghost use Rattle.coupling.specs.Columns.{flights_of, movements_of};
ghost use Rattle.coupling.specs.InnerTurn.{packed_of, gaps_of, Assigned};

use crate::columns::{Flights, Movements, Packed};
use crate::limits::MAX_FLIGHTS;
use crate::pack::pack;
use crate::pair::{Asked, couple_in};

// Each of m movements takes its track of n; `turns`, `order` and `stack` are room to work in.
fn assign(
    movements: Asked<'_, '_>,
    m: usize,
    turns: &mut [u32],
    tracks: Packed<'_>,
    n: usize,
    order: &mut [u32],
    stack: &mut [u32],
    answers: &mut [u32],
)
    requires m_le_max_flights { m ≤ max_flights }
    requires n_le_max_flights { n ≤ max_flights }
    requires max_flights_in_bounds { max_flights ≤ length turns.old }
    requires max_flights_in_bounds_2 { max_flights ≤ length order.old }
    requires max_flights_in_bounds_3 { max_flights ≤ length stack.old }
    requires m_in_bounds { m ≤ length answers.old }
    ensures { answers.new
        ≡ couple (gaps_of (packed_of tracks.entry) movements.entry) (moment_in (packed_of tracks.entry))
        (sorted (moment_in (packed_of movements.entry.packed)) (places m)) (places n) answers.old }
{
    couple_in(
        movements,
        &mut turns[..m],
        tracks,
        &mut order[..n],
        stack,
        answers,
    );
}

// Each of m packed movements takes its track.
fn take_tracks(movements: Asked<'_, '_>, m: usize, tracks: Flights<'_>, answers: &mut [u32])
    requires m_le_max_flights { m ≤ max_flights }
    requires m_in_bounds { m ≤ length answers.old }
    requires tracks_value { flights_fit (flights_of tracks) ≡ true }
    ensures { Assigned (packed_of movements.entry.packed) movements.entry.classes.now movements.entry.circuits.now m
        (flights_of tracks.entry) answers.old answers.new }
{
    let mut highs = [0u64; MAX_FLIGHTS];
    let mut lows = [0u64; MAX_FLIGHTS];
    let mut moments = [0u64; MAX_FLIGHTS];
    let mut turns = [0u32; MAX_FLIGHTS];
    let mut order = [0u32; MAX_FLIGHTS];
    let mut stack = [0u32; MAX_FLIGHTS];
    pack(tracks, &mut highs, &mut lows, &mut moments);
    let packed = Packed::new(&highs, &lows, &moments);
    assign(
        movements,
        m,
        &mut turns,
        packed,
        tracks.dates.len(),
        &mut order,
        &mut stack,
        answers,
    );
}

// The tracks of movements that are not refused, into room that suffices.
pub fn couple_columns(movements: Movements<'_>, tracks: Flights<'_>, answers: &mut [u32])
    requires movements_value { movements_fit (movements_of movements) ≡ true }
    requires tracks_value { flights_fit (flights_of tracks) ≡ true }
    requires dates_in_bounds { length movements.flights.dates.now ≤ length answers.old }
    ensures { answers.new
        ≡ front (tracks_for (movements_of movements.entry) (flights_of tracks.entry)) answers.old }
{
    let mut highs = [0u64; MAX_FLIGHTS];
    let mut lows = [0u64; MAX_FLIGHTS];
    let mut moments = [0u64; MAX_FLIGHTS];
    pack(movements.flights, &mut highs, &mut lows, &mut moments);
    let packed = Packed::new(&highs, &lows, &moments);
    let asked = Asked {
        packed,
        classes: movements.flights.classes,
        circuits: movements.circuits,
    };
    take_tracks(asked, movements.flights.dates.len(), tracks, answers);
}

// The first n numbers of column k of a table.
fn column(table: &[u32], k: usize, n: usize) -> &[u32]
    requires k_bound { k ≤ 8 }
    requires n_le_max_flights { n ≤ max_flights }
    requires max_flights_in_bounds { k * max_flights + max_flights ≤ length table.now }
    ensures { result.now ≡ column_in k n table.now }
{
    let start = k * MAX_FLIGHTS;
    let end = start + n;
    &table[start..end]
}

// The first n flights of a table.
fn flights(table: &[u32], n: usize) -> Flights<'_>
    requires n_le_max_flights { n ≤ max_flights }
    requires table_len { 8 * max_flights ≤ length table.now }
    ensures { flights_of result ≡ flights_in table.now n }
{
    Flights {
        dates: column(table, 1, n),
        times: column(table, 2, n),
        classes: column(table, 3, n),
        kinds: column(table, 4, n),
        runways: column(table, 5, n),
        airports: column(table, 6, n),
        types: column(table, 7, n),
    }
}

// The tracks of the first m movements of a table, of the first n tracks of another.
pub fn couple_tables(movements: &[u32], m: usize, tracks: &[u32], n: usize, answers: &mut [u32])
    requires m_le_max_flights { m ≤ max_flights }
    requires n_le_max_flights { n ≤ max_flights }
    requires movements_len { length movements.now ≡ 9 * max_flights }
    requires tracks_len { length tracks.now ≡ 8 * max_flights }
    requires m_in_bounds { m ≤ length answers.old }
    requires m_value { movements_fit (movements_in movements.now m) ≡ true }
    requires n_value { flights_fit (flights_in tracks.now n) ≡ true }
    ensures { answers.new
        ≡ front (tracks_for (movements_in movements.now m) (flights_in tracks.now n))
        answers.old }
{
    let moved = Movements {
        flights: flights(movements, m),
        circuits: column(movements, 8, m),
    };
    couple_columns(moved, flights(tracks, n), answers);
}
