// Radar tracks for movements: RULES, "Radar tracks". The definitions are crate coupling_rules'.
#![tactic(auto)]

ghost use Rattle.refusal.specs.Refusal.{told};
ghost use Rattle.room.specs.Room.{Writes};
ghost use Rattle.coupling_rules.specs.Rule.{tracks_for};
ghost use Rattle.coupling_rules.specs.Refusals.{couple_refusal};
ghost use Rattle.coupling.specs.Columns.{flights_of, movements_of};

pub mod columns;
mod fit;
mod gap;
pub mod inner;
pub mod limits;
mod order;
mod pack;
mod pair;
mod turn;

use crate::columns::{Flights, Movements};
use refusal::Refusal;

// The place, from 1, of each movement's track, 0 for none, into lent room. Wrong columns or values are refused, then
// too little room.
pub fn couple(
    movements: Movements<'_>,
    tracks: Flights<'_>,
    room: &mut [u32],
) -> Result<(), Refusal>
    ensures { Writes
        (couple_refusal (movements_of movements.entry) (flights_of tracks.entry))
        (tracks_for (movements_of movements.entry) (flights_of tracks.entry))
        room.old (told result) room.new }
{
    fit::refusal(movements, tracks, room.len())?;
    inner::couple_columns(movements, tracks, room);
    Ok(())
}
