// A second planner, by another way than the planner's: it plays the ring. It shares nothing with the planner, and it is there to be compared
// with it. Nothing is promised of its answers but that they come.
use crate::job::{Board, Job, Kind, MOST_BOARDS};
use crate::record::{Direction, HEAD, Record};
use crate::table::Refusal;

// What a planner says of its plan: the second planner's own, since two programs that share a part agree on its mistakes (docs/DECISIONS.md, A
// second planner that judges).
#[derive(Clone, Copy, Debug, PartialEq, Eq)]
pub(crate) struct Outcome {
    pub(crate) finish: u32,
    pub(crate) moves: u32,
    pub(crate) tight: u8,
}

// A plan, and what its play was like.
#[derive(Clone, Copy)]
pub(crate) struct Plan {
    pub(crate) outcome: Outcome,
    // how many links were busy as long as the tight link, and how many items more than it a link carries
    pub(crate) equals: usize,
    pub(crate) lighter: u32,
    // how often a board of a one-way ring had an item to send, a free link, and none in hand
    pub(crate) waits: u32,
    // the sends that the play never came to
    pub(crate) left: u32,
}

// The least and the greatest S, and the largest |surplus|: the second planner's own, since two programs that share a part agree on its mistakes
// (docs/DECISIONS.md, A second planner that judges).
#[derive(Clone, Copy)]
struct Levels {
    low: i32,
    high: i32,
    widest: u32,
}

// A board in play and its link: the sends in all and those that are left, all of one direction, the end of the last one, the ticks that the link was
// busy so far, and the number of the next record.
#[derive(Clone, Copy)]
struct Sender {
    link: u8,
    load: u32,
    cost: u32,
    items: u32,
    left: u32,
    direction: Direction,
    end: u32,
    busy: u32,
    next: usize,
    waits: u32,
}

// A play's tick, and the records of its sends so far.
#[derive(Drop)]
struct Log<'a> {
    t: u32,
    records: &'a mut [[u8; 6]],
}

// A ring in play.
#[derive(Drop)]
struct Play<'a> {
    senders: &'a mut [Sender],
    log: Log<'a>,
}

impl Levels {
    fn of(boards: &[Board]) -> Self {
        let mut levels = Levels {
            low: i32::MAX,
            high: i32::MIN,
            widest: 0,
        };
        let mut sum: i32 = 0;
        for board in boards {
            sum = sum.wrapping_add(board.surplus.into());
            levels.low = levels.low.min(sum);
            levels.high = levels.high.max(sum);
            levels.widest = levels.widest.max(board.surplus.unsigned_abs().into());
        }
        levels
    }

    // Half of the distance from the least S to the greatest, rounded down.
    fn half(&self) -> i32 {
        (self.high.abs_diff(self.low) / 2).cast_signed()
    }

    // The number taken from every S.
    fn offset(&self, kind: Kind) -> i32 {
        match kind {
            Kind::TwoWay => self.low.wrapping_add(self.half()),
            Kind::OneWay | Kind::MixedOneWay => self.low,
        }
    }

    // The rounds of a two-way ring.
    fn rounds(&self) -> u32 {
        self.high.abs_diff(self.low).div_ceil(2).max(self.widest)
    }
}

impl Sender {
    // A board whose link has nothing to carry.
    const AT_REST: Sender = Sender {
        link: 0,
        load: 0,
        cost: 0,
        items: 0,
        left: 0,
        direction: Direction::Forward,
        end: 0,
        busy: 0,
        next: 0,
        waits: 0,
    };

    // A board as a play begins, where its link has this S less the offset, and so many sends are on the links before.
    fn new(link: u8, board: &Board, flow: i32, before: u32) -> Self {
        Sender {
            link,
            load: board.load.into(),
            cost: board.cost.into(),
            items: flow.unsigned_abs(),
            left: flow.unsigned_abs(),
            direction: if flow < 0 {
                Direction::Back
            } else {
                Direction::Forward
            },
            next: before as usize,
            ..Sender::AT_REST
        }
    }

    // The link takes one send more.
    fn send(&mut self, log: &mut Log) {
        log.put(
            self.next,
            Record {
                link: self.link,
                start: log.t,
                direction: self.direction,
            },
        );
        self.left = self.left.saturating_sub(1);
        self.end = log.t.wrapping_add(self.cost);
        self.busy = self.busy.wrapping_add(self.cost);
        self.next = self.next.wrapping_add(1);
    }

    // The board sends if its link is free and it has an item.
    fn start(&mut self, log: &mut Log) {
        if log.t < self.end || self.left == 0 {
            return;
        }
        if self.load == 0 {
            self.waits = self.waits.wrapping_add(1);
            return;
        }
        self.load -= 1;
        self.send(log);
    }

    // The link of a two-way ring with so many rounds left: forward in the first rounds, back in the last.
    fn turn(&mut self, rounds: u32, log: &mut Log) {
        if self.left == 0 || self.direction == Direction::Back && self.left < rounds {
            return;
        }
        self.send(log);
    }
}

impl Log<'_> {
    fn put(&mut self, place: usize, send: Record) {
        if let Some(record) = self.records.get_mut(place) {
            *record = send.into();
        }
    }
}

// The boards as a play begins. How many sends there are.
fn deal(job: &Job, offset: i32, senders: &mut [Sender]) -> u32 {
    let mut moves: u32 = 0;
    let mut sum: i32 = 0;
    let boards = (0..128).zip(job.boards());
    for (sender, (link, board)) in senders.iter_mut().zip(boards) {
        sum = sum.wrapping_add(board.surplus.into());
        *sender = Sender::new(link, board, sum.wrapping_sub(offset), moves);
        moves = moves.wrapping_add(sender.items);
    }
    moves
}

impl<'a> Play<'a> {
    fn new(senders: &'a mut [Sender], records: &'a mut [[u8; 6]]) -> Self {
        Play {
            senders,
            log: Log { t: 0, records },
        }
    }

    // What starts at the tick, and the next tick at which something ends.
    fn start(&mut self) -> Option<u32> {
        for sender in self.senders.iter_mut() {
            sender.start(&mut self.log);
        }
        let t = self.log.t;
        let ends = self.senders.iter().map(|sender| sender.end);
        ends.filter(|end| t < *end).min()
    }

    // Where the send before a board ends at the tick, the board has its item.
    fn land(&mut self) {
        let mut end = self.senders.last().map(|sender| sender.end);
        for sender in self.senders.iter_mut() {
            if end == Some(self.log.t) {
                sender.load = sender.load.wrapping_add(1);
            }
            end = Some(sender.end);
        }
    }

    // A one-way ring, from a tick at which something ends to the next: what starts, and then what arrives. Each turn after the first comes at an
    // end of a send, so there are no more turns than sends until the last one starts.
    fn play(&mut self, moves: u32) {
        for _ in 0..moves {
            let Some(soon) = self.start() else {
                return;
            };
            self.log.t = soon;
            self.land();
        }
    }

    // A round of a two-way ring.
    fn round(&mut self, rounds: u32) {
        for sender in self.senders.iter_mut() {
            sender.turn(rounds, &mut self.log);
        }
    }

    // A two-way ring round by round.
    fn take_rounds(&mut self, rounds: u32, cost: u32) {
        for k in 0..rounds {
            self.round(rounds - k);
            self.log.t = self.log.t.wrapping_add(cost);
        }
    }
}

// The tight link is the one that was busy longest, of equals the lowest, and link 0 where none was busy: the links are looked at from the last one
// down.
fn tight_link(senders: &[Sender]) -> Sender {
    senders
        .iter()
        .rev()
        .max_by_key(|sender| sender.busy)
        .copied()
        .unwrap_or(Sender::AT_REST)
}

// What the boards after a play come to.
fn summed(senders: &[Sender], moves: u32) -> Plan {
    let tight = tight_link(senders);
    let most = senders.iter().map(|sender| sender.items).max();
    let finish = senders.iter().map(|sender| sender.end).max();
    Plan {
        outcome: Outcome {
            finish: finish.unwrap_or(0),
            moves,
            tight: tight.link,
        },
        equals: senders
            .iter()
            .filter(|sender| 0 < tight.busy && sender.busy == tight.busy)
            .count()
            .saturating_sub(1),
        lighter: most.unwrap_or(0).saturating_sub(tight.items),
        waits: senders
            .iter()
            .map(|sender| sender.waits)
            .fold(0, u32::wrapping_add),
        left: senders
            .iter()
            .map(|sender| sender.left)
            .fold(0, u32::wrapping_add),
    }
}

// The first bytes of a plan.
fn head(kind: Kind, n: u8, outcome: Outcome) -> [u8; HEAD] {
    let [a, b, c, d] = outcome.finish.to_be_bytes();
    let [e, f, g, h] = outcome.moves.to_be_bytes();
    let kind = kind as u8;
    [b'P', b'L', b'N', 0, 1, kind, n, a, b, c, d, e, f, g, h]
}

// The plan of a job. Number 12 is never given: no ring within the limits has a finish of more than 32 bits.
pub(crate) fn plan_of(job: &Job, buf: &mut [u8]) -> Result<Plan, Refusal> {
    let Some((front, rest)) = buf.split_first_chunk_mut::<HEAD>() else {
        return Err(Refusal::Buffer);
    };
    let (records, _) = rest.as_chunks_mut::<6>();
    let boards = job.boards();
    let n = boards.len();
    let levels = Levels::of(boards);
    let mut ring = [Sender::AT_REST; MOST_BOARDS];
    let senders = &mut ring[..n];
    let moves = deal(job, levels.offset(job.kind), senders);
    if records.len() < moves as usize {
        return Err(Refusal::Buffer);
    }
    let cost = senders.first().map_or(0, |sender| sender.cost);
    let mut play = Play::new(senders, records);
    match job.kind {
        Kind::TwoWay => play.take_rounds(levels.rounds(), cost),
        Kind::OneWay | Kind::MixedOneWay => play.play(moves),
    }
    let plan = summed(senders, moves);
    *front = head(job.kind, n as u8, plan.outcome);
    Ok(plan)
}
