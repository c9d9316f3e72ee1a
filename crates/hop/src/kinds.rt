// The kinds of ring.
ghost use Rattle.std.specs.Prelude.{◌≡◌};
ghost use Rattle.hop.specs.Kinds.{number_of, kind_of};

use crate::Refusal;

// One way with one cost, one way with a cost for each link, or two way with one cost.
#[derive(Clone, Copy, Debug, PartialEq, Eq)]
pub enum Kind {
    OneWay,
    MixedOneWay,
    TwoWay,
}

impl Kind {
    // Document 01's number of the kind, 1 to 3.
    pub fn number(self) -> u8
        ensures { result ≡ number_of self }
    {
        match self {
            Kind::OneWay => 1,
            Kind::MixedOneWay => 2,
            Kind::TwoWay => 3,
        }
    }
}

impl TryFrom<u8> for Kind {
    type Error = Refusal;

    ghost try_from_gives = { λ number r. r ≡ kind_of number };

    fn try_from(number: u8) -> Result<Self, Refusal> {
        match number {
            1 => Ok(Kind::OneWay),
            2 => Ok(Kind::MixedOneWay),
            3 => Ok(Kind::TwoWay),
            _ => Err(Refusal::NoKind),
        }
    }
}
