// What is refused as wrong flights: columns that are too long or of unequal length, and values out of their range.
ghost use Rattle.std.specs.Prelude.{◌≡◌, ◌==◌, length, nat_le};
ghost use Rattle.std.specs.List.{list_all};
ghost use Rattle.refusal.specs.Refusal.{told};
ghost use Rattle.room.specs.Room.{then_room};
ghost use Rattle.coupling_rules.specs.Refusals.{all_exist, shape_fits, values_fit, flights_fit, movements_fit};
ghost use Rattle.coupling_rules.specs.Refusals.{couple_refusal};
ghost use Rattle.coupling.specs.Columns.{flights_of, movements_of};

use crate::columns::{Flights, Movements};
use crate::limits::MAX_FLIGHTS;
use date::date_exists;
use movement::limits::SECONDS_A_DAY;
use refusal::{Refusal, all_within};

// Whether every date exists.
fn all_exist(dates: &[u32]) -> bool
    ensures { result ≡ all_exist dates.now }
{
    dates.iter().all(|date| date_exists(*date))
}

// Whether all lengths are n.
fn all_are(lengths: &[usize], n: usize) -> bool
    ensures { result ≡ list_all (λ k. k == n) lengths.now }
{
    lengths.iter().all(|length| *length == n)
}

// Whether there are no more than there may be, in columns of one length.
fn shape_fits(flights: Flights<'_>) -> bool
    ensures { result ≡ shape_fits (flights_of flights.entry) }
{
    let n = flights.dates.len();
    let lengths = [
        flights.times.len(),
        flights.classes.len(),
        flights.kinds.len(),
        flights.runways.len(),
        flights.airports.len(),
        flights.types.len(),
    ];
    n <= MAX_FLIGHTS && all_are(&lengths, n)
}

// Whether dates exist, seconds are of a day, and classes and kinds are 0 or 1.
fn values_fit(flights: Flights<'_>) -> bool
    ensures { result ≡ values_fit (flights_of flights.entry) }
{
    all_exist(flights.dates)
        && all_within(flights.times, SECONDS_A_DAY - 1)
        && all_within(flights.classes, 1)
        && all_within(flights.kinds, 1)
}

// Whether flights are not refused.
pub(crate) fn flights_fit(flights: Flights<'_>) -> bool
    ensures { result ≡ flights_fit (flights_of flights.entry) }
{
    shape_fits(flights) && values_fit(flights)
}

// Whether movements are not refused.
pub(crate) fn movements_fit(movements: Movements<'_>) -> bool
    ensures { result ≡ movements_fit (movements_of movements.entry) }
{
    flights_fit(movements.flights) && movements.circuits.len() == movements.flights.dates.len()
}

// Wrong movements or tracks are refused, and then room that is shorter than the movements.
pub(crate) fn refusal(
    movements: Movements<'_>,
    tracks: Flights<'_>,
    room: usize,
) -> Result<(), Refusal>
    ensures { told result
        ≡ then_room (couple_refusal (movements_of movements.entry) (flights_of tracks.entry))
        (nat_le (length movements.entry.flights.dates.now) room) }
{
    if !(movements_fit(movements) && flights_fit(tracks)) {
        return Err(Refusal::WrongFlights);
    }
    if room < movements.flights.dates.len() {
        return Err(Refusal::TooLittleRoom);
    }
    Ok(())
}
