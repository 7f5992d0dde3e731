// The kind of a movement: 0 start, 1 landing.
ghost use Rattle.std.specs.Prelude.{◌≡◌};
ghost use Rattle.movement.specs.Kind.{kind_number, kind_numbered};

#[derive(Clone, Copy, PartialEq, Eq)]
pub enum Kind {
    Start,
    Landing,
}

impl Kind {
    pub(crate) fn numbered(n: u32) -> Kind
        ensures { result ≡ kind_numbered n }
    {
        match n {
            0 => Kind::Start,
            _ => Kind::Landing,
        }
    }

    pub(crate) fn number(self) -> u32
        ensures { result ≡ kind_number self }
    {
        match self {
            Kind::Start => 0,
            Kind::Landing => 1,
        }
    }
}
