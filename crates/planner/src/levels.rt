// The levels of the links of a ring. No list of them is kept: each walk raises the level from link to link again.
ghost use Rattle.std.specs.Prelude.{◌≡◌, ◌+◌, ◌*◌, ◌≤◌, pos, nat_abs, ◌+ℤ◌};
ghost use Rattle.std.specs.Iterator.{YieldsFirst, item_count};
ghost use Rattle.ring.specs.Boards.{most_load};
ghost use Rattle.planner.specs.Levels.{levels_from, Leads, Leads-prop};

// The levels that are left to come: each is the one before raised by the surplus of the board between.
#[derive(Drop)]
pub(crate) struct Levels<'a> {
    level: u32,
    surpluses: &'a [i16],
    ghost whole: { Leads level surpluses.now } by { Leads-prop level surpluses.now },
}

impl<'a> Levels<'a> {
    ghost use Rattle.std.specs.Prelude.{◌≡◌};
    ghost use Rattle.planner.specs.Levels.{Leads};

    pub(crate) fn new(level: u32, surpluses: &'a [i16]) -> Self
        requires { Leads level surpluses.now }
        ensures level_value { result.level ≡ level }
        ensures surpluses_value { result.surpluses.now ≡ surpluses.now }
    {
        Levels { level, surpluses }
    }
}

// The level of a link, from that of the link before and the surplus of the board between: the planner's only place that adds signed numbers.
pub(crate) fn risen(level: u32, surplus: i16) -> u32
    requires { (level ≤ 256 * most_load) × (pos (nat_abs (pos level +ℤ surplus)) ≡ pos level +ℤ surplus) }
    ensures { result ≡ nat_abs (pos level +ℤ surplus) }
{
    ((level as i32) + (surplus as i32)) as u32
}

impl<'a> Iterator for Levels<'a> {
    type Item = u32;

    ghost next_gives = { YieldsFirst (λ s. levels_from s.level s.surpluses.now) };

    ghost remaining = { item_count (λ s. s.surpluses.now) };

    fn next(&mut self) -> Option<u32> {
        let (surplus, rest) = self.surpluses.split_first()?;
        self.level = risen(self.level, *surplus);
        self.surpluses = rest;
        Some(self.level)
    }
}
