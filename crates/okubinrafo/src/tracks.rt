// Radar tracks for movements.
ghost use Rattle.room.specs.Room.{Writes};
ghost use Rattle.coupling_rules.specs.Flights.{flights_before, movements_before};
ghost use Rattle.coupling_rules.specs.Rule.{tracks_for};
ghost use Rattle.coupling_rules.specs.Refusals.{couple_refusal};

use coupling::columns::{Flights, Movements};
use refusal::told;

// The place, from 1, of each movement's track, 0 for none.
#[unsafe(no_mangle)]
pub extern "C" fn okubinrafo_couple<'a>(
    dates: &'a [u32],
    times: &'a [u32],
    classes: &'a [u32],
    kinds: &'a [u32],
    runways: &'a [u32],
    airports: &'a [u32],
    types: &'a [u32],
    circuits: &'a [u32],
    track_dates: &'a [u32],
    track_times: &'a [u32],
    track_classes: &'a [u32],
    track_kinds: &'a [u32],
    track_runways: &'a [u32],
    track_airports: &'a [u32],
    track_types: &'a [u32],
    tracks: &mut [u32],
) -> u32
    ensures { Writes
        (couple_refusal (movements_before dates times classes kinds runways airports types circuits)
        (flights_before track_dates track_times track_classes track_kinds track_runways track_airports
        track_types))
        (tracks_for (movements_before dates times classes kinds runways airports types circuits)
        (flights_before track_dates track_times track_classes track_kinds track_runways track_airports
        track_types))
        tracks.old result tracks.new }
{
    let flights = Flights {
        dates,
        times,
        classes,
        kinds,
        runways,
        airports,
        types,
    };
    let movements = Movements { flights, circuits };
    let track_flights = Flights {
        dates: track_dates,
        times: track_times,
        classes: track_classes,
        kinds: track_kinds,
        runways: track_runways,
        airports: track_airports,
        types: track_types,
    };
    told(coupling::couple(movements, track_flights, tracks))
}
