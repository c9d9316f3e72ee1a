// A plan's bytes: fifteen at its head, and then six for each send, its record. All of it is the second planner's own, since two programs that
// share a part agree on its mistakes (docs/DECISIONS.md, A second planner that judges).
ghost use Rattle.std.specs.Prelude.{◌+◌, ◌*◌, ◌≡◌};

// How many bytes a plan's head has.
pub(crate) const HEAD: usize = 15;

// The length of a plan of so many sends.
pub(crate) fn length(moves: u32) -> usize
    ensures { result ≡ 15 + 6 * moves }
{
    HEAD + 6 * (moves as usize)
}

// Which way over a link a send goes, under a record's number for it.
#[derive(Clone, Copy, Debug, PartialEq, Eq, PartialOrd, Ord)]
pub(crate) enum Direction {
    Forward = 0,
    Back = 1,
}

// A send. The order is a plan's.
#[derive(Clone, Copy, Debug, PartialEq, Eq, PartialOrd, Ord)]
pub(crate) struct Record {
    pub(crate) link: u8,
    pub(crate) start: u32,
    pub(crate) direction: Direction,
}

impl Record {
    // The tick at which the send ends, on a link of this cost.
    pub(crate) fn end(&self, cost: u16) -> u64 {
        u64::from(self.start) + u64::from(cost)
    }
}

// A number that is no direction's.
#[derive(Clone, Copy, Debug, PartialEq, Eq)]
pub(crate) struct NoDirection;

impl TryFrom<[u8; 6]> for Record {
    type Error = NoDirection;

    fn try_from([link, direction, a, b, c, d]: [u8; 6]) -> Result<Self, NoDirection> {
        let direction = match direction {
            0 => Direction::Forward,
            1 => Direction::Back,
            _ => return Err(NoDirection),
        };
        Ok(Record {
            link,
            start: u32::from_be_bytes([a, b, c, d]),
            direction,
        })
    }
}

impl From<Record> for [u8; 6] {
    fn from(record: Record) -> Self {
        let [a, b, c, d] = record.start.to_be_bytes();
        [record.link, record.direction as u8, a, b, c, d]
    }
}
