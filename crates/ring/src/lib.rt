// The leaves that all else stands on: items and ticks, the time of a link, the end of a send, four bytes, and a board within its limits.
#![tactic(auto)]

ghost use Rattle.std.specs.Prelude.{◌≡◌, ◌+◌, ◌*◌};
ghost use Rattle.ring.specs.Limits.{board_of, fault_of, number_of};

// Items are counted in items and time in ticks.
#[derive(Clone, Copy, Debug, PartialEq, Eq, PartialOrd, Ord)]
pub struct Items(pub u32);

#[derive(Clone, Copy, Debug, PartialEq, Eq, PartialOrd, Ord)]
pub struct Ticks(pub u64);

// The ticks that a link of this cost takes for so many items, one after the other: the only place that multiplies the two.
pub fn link_time(cost: u16, items: Items) -> Ticks
    ensures { result.0 ≡ cost * items.0 }
{
    Ticks(u64::from(cost) * u64::from(items.0))
}

// The tick at which a send ends.
pub fn end_of(start: u32, cost: u16) -> Ticks
    ensures { result.0 ≡ start + cost }
{
    Ticks(u64::from(start) + u64::from(cost))
}

// The number of four bytes, the highest first: the start in a plan's record.
pub fn quad(a: u8, b: u8, c: u8, d: u8) -> u32
    ensures { result ≡ (a * 256 + b) * 65536 + (c * 256 + d) }
{
    u32::from_be_bytes([a, b, c, d])
}

// A board's numbers, which only `new` puts together, within the limits. Its link is the one to the next board.
#[derive(Clone, Copy, Debug, PartialEq, Eq)]
pub struct Board {
    load: u16,
    surplus: i16,
    cost: u16,
}

// Which number of a board is outside its limits.
#[derive(Clone, Copy, Debug, PartialEq, Eq)]
pub enum Outside {
    Load,
    After,
    Cost,
}

impl Outside {
    // Document 01's refusal number.
    pub fn number(self) -> u8
        ensures { result ≡ number_of self }
    {
        match self {
            Outside::Load => 7,
            Outside::After => 8,
            Outside::Cost => 9,
        }
    }
}

impl Board {
    // The limits; those of the load after are signed, as load − surplus is.
    pub const LEAST: u16 = 1;

    pub const MOST_LOAD: u16 = 4095;

    pub const LEAST_AFTER: i32 = 1;

    pub const MOST_AFTER: i32 = 4095;

    pub const MOST_COST: u16 = 8000;

    // The board of three numbers, whatever they are: load, then load after, then cost is looked at.
    pub fn new(load: u16, surplus: i16, cost: u16) -> Result<Board, Outside>
        ensures { result ≡ board_of load surplus cost }
    {
        if load < Self::LEAST {
            return Err(Outside::Load);
        }
        if Self::MOST_LOAD < load {
            return Err(Outside::Load);
        }
        let after = (load as i32) - (surplus as i32);
        if after < Self::LEAST_AFTER {
            return Err(Outside::After);
        }
        if Self::MOST_AFTER < after {
            return Err(Outside::After);
        }
        if cost < Self::LEAST {
            return Err(Outside::Cost);
        }
        if Self::MOST_COST < cost {
            return Err(Outside::Cost);
        }
        Ok(Board {
            load,
            surplus,
            cost,
        })
    }
}

// The refusal number of a board that was not made, and 0 of one that was. Nothing here asks for it; docs/PROMISES.md promises it.
pub fn fault(made: Result<Board, Outside>) -> u8
    ensures { result ≡ fault_of made }
{
    made.err().map_or(0, Outside::number)
}
