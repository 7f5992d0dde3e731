// What calls share when they refuse: RULES, "Refusal numbers". The order of refusals stands in specs/Refuse.antt; a
// function refuses by name, and `told` gives the number.
#![tactic(auto)]

ghost use Rattle.std.specs.Prelude.{◌≡◌};
ghost use Rattle.refusal.specs.Range.{all_within};
ghost use Rattle.refusal.specs.Refusal.{number_of, told};

// Why a call refuses.
#[derive(Clone, Copy, PartialEq, Eq)]
pub enum Refusal {
    OutOfRange,
    TooLight,
    WrongIdentity,
    AlreadyStands,
    DoesNotStand,
    NoUnusedRow,
    WrongLevels,
    NoLevelsHeld,
    NotSound,
    NoneComputed,
    WrongDays,
    WrongNetwork,
    WrongNetworkLevel,
    TooLittleRoom,
    WrongLevelAsked,
    OffLayout,
    NetworkOffLayout,
    WrongFlights,
    LevelElsewhere,
}

impl Refusal {
    // The rules' number.
    pub fn number(self) -> u32
        ensures { result ≡ number_of self }
    {
        match self {
            Refusal::OutOfRange => 1,
            Refusal::TooLight => 2,
            Refusal::WrongIdentity => 3,
            Refusal::AlreadyStands => 4,
            Refusal::DoesNotStand => 5,
            Refusal::NoUnusedRow => 6,
            Refusal::WrongLevels => 7,
            Refusal::NoLevelsHeld => 8,
            Refusal::NotSound => 9,
            Refusal::NoneComputed => 10,
            Refusal::WrongDays => 11,
            Refusal::WrongNetwork => 12,
            Refusal::WrongNetworkLevel => 13,
            Refusal::TooLittleRoom => 14,
            Refusal::WrongLevelAsked => 15,
            Refusal::OffLayout => 16,
            Refusal::NetworkOffLayout => 17,
            Refusal::WrongFlights => 18,
            Refusal::LevelElsewhere => 19,
        }
    }
}

// What a call tells: the number of its refusal, or 0.
pub fn told<T: Drop>(answer: Result<T, Refusal>) -> u32
    ensures { result ≡ told answer }
{
    match answer {
        Ok(_) => 0,
        Err(why) => why.number(),
    }
}

// Whether no value is over `top`.
pub fn all_within(values: &[u32], top: u32) -> bool
    ensures { result ≡ all_within top values.now }
{
    values.iter().all(|value| *value <= top)
}
