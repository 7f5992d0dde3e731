// The period of the day that a movement falls in: 0 day, 1 evening, 2 night.
ghost use Rattle.std.specs.Prelude.{◌≡◌};
ghost use Rattle.movement.specs.Period.{period_of, period_number};

#[derive(Clone, Copy, PartialEq, Eq)]
pub enum Period {
    Day,
    Evening,
    Night,
}

impl Period {
    // 07:00:00, 19:00:00 and 23:00:00, as seconds of the local day.
    pub const DAY_FROM: u32 = 25_200;

    pub const EVENING_FROM: u32 = 68_400;

    pub const NIGHT_FROM: u32 = 82_800;

    // The period of a second of the day.
    pub(crate) fn at(second: u32) -> Period
        ensures { result ≡ period_of second }
    {
        match second {
            Period::DAY_FROM..Period::EVENING_FROM => Period::Day,
            Period::EVENING_FROM..Period::NIGHT_FROM => Period::Evening,
            _ => Period::Night,
        }
    }

    pub(crate) fn number(self) -> u32
        ensures { result ≡ period_number self }
    {
        match self {
            Period::Day => 0,
            Period::Evening => 1,
            Period::Night => 2,
        }
    }
}
