// What the crates above ask of a movement whose numbers they have already found in range.
ghost use Rattle.std.specs.Prelude.{◌≡◌, ◌<◌};
ghost use Rattle.movement.specs.Limits.{group_count, type_count, kind_count, seconds_a_day};
ghost use Rattle.movement.specs.Group.{group_number, group_of, group_period};
ghost use Rattle.movement.specs.Period.{weight_of};

use crate::aircraft::Aircraft;
use crate::kind::Kind;
use crate::period::Period;

// The number of a group.
fn number_of(aircraft: Aircraft, kind: Kind, period: Period) -> u32
    ensures { result ≡ group_number aircraft kind period }
{
    6 * aircraft.number() + 3 * kind.number() + period.number()
}

// The group of a movement.
pub fn group_of(aircraft: u32, kind: u32, second: u32) -> u32
    requires { (aircraft < type_count) × (kind < kind_count) × (second < seconds_a_day) }
    ensures { result ≡ group_of aircraft kind second }
{
    number_of(
        Aircraft::numbered(aircraft),
        Kind::numbered(kind),
        Period::at(second),
    )
}

// What is added to the levels of a group's movements: 5.00 dB for each period past the day. A load asks it of every
// row, and a product has no branch.
pub fn group_weight(group: u32) -> u32
    requires { group < group_count }
    ensures { result ≡ weight_of (group_period group) }
{
    500 * (group % 3)
}
