// Class, kind, runway, airport and type designator of each flight as two numbers that agree exactly if the five do, and
// its moment beside them.
ghost use Rattle.std.specs.Prelude.{◌≡◌, ◌≤◌, true, length};
ghost use Rattle.coupling_rules.specs.Limits.{max_flights};
ghost use Rattle.coupling_rules.specs.Rule.{moment as moment_at};
ghost use Rattle.coupling_rules.specs.Refusals.{flights_fit};
ghost use Rattle.coupling_rules.specs.InnerPacked.{high_of, low_of, packed_after, Packs};
ghost use Rattle.coupling.specs.Columns.{flights_of};

use crate::columns::Flights;
use date::day_number;
use movement::limits::SECONDS_A_DAY;

// The second of a day, numbered through the calendar.
fn moment(date: u32, time: u32) -> u64
    ensures { result ≡ moment_at date time }
{
    u64::from(day_number(date)) * u64::from(SECONDS_A_DAY) + u64::from(time)
}

fn high(airport: u32, designator: u32) -> u64
    ensures { result ≡ high_of airport designator }
{
    u64::from(airport) * 4_294_967_296 + u64::from(designator)
}

fn low(runway: u32, class: u32, kind: u32) -> u64
    ensures { result ≡ low_of runway class kind }
{
    u64::from(runway) * 4 + u64::from(class) * 2 + u64::from(kind)
}

// The packed columns of flights.
pub(crate) fn pack(flights: Flights<'_>, highs: &mut [u64], lows: &mut [u64], moments: &mut [u64])
    requires flights_value { flights_fit (flights_of flights) ≡ true }
    requires max_flights_in_bounds { max_flights ≤ length highs.old }
    requires max_flights_in_bounds_2 { max_flights ≤ length lows.old }
    requires max_flights_in_bounds_3 { max_flights ≤ length moments.old }
    ensures { Packs (flights_of flights.entry) (packed_after highs lows moments) }
{
    for i in 0..flights.dates.len() {
        highs[i] = high(flights.airports[i], flights.types[i]);
        lows[i] = low(flights.runways[i], flights.classes[i], flights.kinds[i]);
        moments[i] = moment(flights.dates[i], flights.times[i]);
    }
}
