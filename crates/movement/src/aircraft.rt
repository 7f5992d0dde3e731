// The type of an aircraft: 0 large, 1 small, 2 helicopter.
ghost use Rattle.std.specs.Prelude.{◌≡◌};
ghost use Rattle.movement.specs.Aircraft.{aircraft_number, aircraft_numbered, mass_fits};

use crate::limits::SMALL_BELOW;

#[derive(Clone, Copy, PartialEq, Eq)]
pub enum Aircraft {
    Large,
    Small,
    Helicopter,
}

impl Aircraft {
    pub(crate) fn numbered(n: u32) -> Aircraft
        ensures { result ≡ aircraft_numbered n }
    {
        match n {
            0 => Aircraft::Large,
            1 => Aircraft::Small,
            _ => Aircraft::Helicopter,
        }
    }

    pub(crate) fn number(self) -> u32
        ensures { result ≡ aircraft_number self }
    {
        match self {
            Aircraft::Large => 0,
            Aircraft::Small => 1,
            Aircraft::Helicopter => 2,
        }
    }

    // Whether an aircraft of this type may have this mass: a small one is under 6,000 kg.
    pub(crate) fn takes(self, mass: u32) -> bool
        ensures { result ≡ mass_fits self mass }
    {
        match self {
            Aircraft::Small => mass < SMALL_BELOW,
            Aircraft::Large | Aircraft::Helicopter => true,
        }
    }
}
