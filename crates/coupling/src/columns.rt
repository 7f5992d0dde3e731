// Movements and radar tracks as lent columns, a place a flight; and the columns that they are packed into.
ghost use Rattle.std.specs.Prelude.{◌≡◌, ℕ, ◌<◌, slice_index};

use sorting::inner::key_at;

// A date is year * 10,000 + month * 100 + day, a time the second of that day; class 0 is an aeroplane, 1 a helicopter;
// kind 0 a start, 1 a landing.
#[derive(Clone, Copy)]
pub struct Flights<'a> {
    pub dates: &'a [u32],
    pub times: &'a [u32],
    pub classes: &'a [u32],
    pub kinds: &'a [u32],
    pub runways: &'a [u32],
    pub airports: &'a [u32],
    pub types: &'a [u32],
    pub ghost runway: { (j : ℕ) → slice_index runways.now j < 4294967296 },
    pub ghost designator: { (j : ℕ) → slice_index types.now j < 4294967296 },
}

// Any number but 0 is a circuit.
#[derive(Clone, Copy)]
pub struct Movements<'a> {
    pub flights: Flights<'a>,
    pub circuits: &'a [u32],
}

// Class, kind, runway, airport and type designator as two numbers, and the moment.
#[derive(Clone, Copy)]
pub struct Packed<'a> {
    pub highs: &'a [u64],
    pub lows: &'a [u64],
    pub moments: &'a [u64],
    pub ghost low: { (j : ℕ) → slice_index lows.now j < 18446744073709551616 },
    pub ghost moment: { (j : ℕ) → slice_index moments.now j < 18446744073709551616 },
}

// The packed numbers of one flight, in the order in which flights stand.
#[derive(Clone, Copy, PartialEq, Eq, PartialOrd, Ord)]
pub struct Rank {
    pub high: u64,
    pub low: u64,
    pub moment: u64,
}

impl<'a> Packed<'a> {
    ghost use Rattle.coupling_rules.specs.InnerPacked.{packed_before};
    ghost use Rattle.coupling.specs.InnerTurn.{packed_of, rank_at};

    pub(crate) fn new(highs: &'a [u64], lows: &'a [u64], moments: &'a [u64]) -> Self
        ensures { packed_of result ≡ packed_before highs lows moments }
    {
        Packed {
            highs,
            lows,
            moments,
        }
    }

    // The numbers of flight j.
    pub(crate) fn rank(self, j: u32) -> Rank
        ensures { result ≡ rank_at (packed_of self.entry) j }
    {
        Rank {
            high: key_at(self.highs, j),
            low: key_at(self.lows, j),
            moment: key_at(self.moments, j),
        }
    }
}
