// The judge: whether a plan's bytes are a valid schedule of a job's ring, by document 01's words for one, in every kind. What it asks of a
// schedule it asks of each board, so it plays the boards one by one: a board's sends and receipts in the order of their ticks. Nothing of
// how a plan is made is used.
ghost use Rattle.std.specs.Prelude.{◌+◌, length};
ghost use Rattle.std.specs.Iterator.{at_most};

use crate::counts::Count;
use crate::job::{Job, Kind, MOST_BOARDS};
use crate::record::{Direction, HEAD, Record, length};
use crate::slices::front;

// What a send does at a tick: what ends at a tick comes before what starts there.
#[derive(Clone, Copy, Debug, PartialEq, Eq, PartialOrd, Ord)]
enum Step {
    Ends,
    Starts,
}

// A send's step on a board's link, in the order of the steps: whether the send is the board's own, and when it ends.
#[derive(Clone, Copy, Debug, PartialEq, Eq, PartialOrd, Ord)]
struct Event {
    tick: u64,
    step: Step,
    own: bool,
    end: u64,
}

// One of a board's two links: which direction is the board's own on it, its records from the next to start on, and those from the next to end on.
#[derive(Clone, Copy)]
struct Side<'a> {
    own: Direction,
    cost: u16,
    starting: &'a [[u8; 6]],
    ending: &'a [[u8; 6]],
}

// What happens on a board's two links.
#[derive(Drop)]
struct Events<'a> {
    ahead: Side<'a>,
    behind: Side<'a>,
}

// A board in play: its load, until which tick it sends and receives, and the faults so far.
#[derive(Drop)]
struct Watched {
    load: u32,
    sends: u64,
    receives: u64,
    faults: Count,
}

impl<'a> Side<'a> {
    fn new(own: Direction, cost: u16, records: &'a [[u8; 6]]) -> Self {
        Side {
            own,
            cost,
            starting: records,
            ending: records,
        }
    }

    fn event(&self, bytes: [u8; 6], step: Step) -> Option<Event> {
        let record = Record::try_from(bytes).ok()?;
        let end = record.end(self.cost);
        Some(Event {
            tick: match step {
                Step::Ends => end,
                Step::Starts => record.start.into(),
            },
            step,
            own: record.direction == self.own,
            end,
        })
    }
}

// What happens on a link, in the order of the ticks.
impl Iterator for Side<'_> {
    type Item = Event;

    ghost remaining = { λ s. at_most (length s.starting.now + length s.ending.now) };

    fn next(&mut self) -> Option<Event> {
        let (first, ended) = self.ending.split_first()?;
        let end = self.event(*first, Step::Ends)?;
        if let Some((first, started)) = self.starting.split_first() {
            let start = self.event(*first, Step::Starts)?;
            if start < end {
                self.starting = started;
                return Some(start);
            }
        }
        self.ending = ended;
        Some(end)
    }
}

// The sooner of what comes next on the two links.
impl Iterator for Events<'_> {
    type Item = Event;

    ghost remaining = { λ s. at_most ((length s.ahead.starting.now + length s.ahead.ending.now) + (length s.behind.starting.now + length s.behind.ending.now)) };

    fn next(&mut self) -> Option<Event> {
        let mut ahead = self.ahead;
        let mut behind = self.behind;
        match (ahead.next(), behind.next()) {
            (Some(first), Some(second)) if second < first => {
                self.behind = behind;
                Some(second)
            }
            (None, second) => {
                self.behind = behind;
                second
            }
            (first, _) => {
                self.ahead = ahead;
                first
            }
        }
    }
}

impl Watched {
    fn see(&mut self, event: Event) {
        match (event.step, event.own) {
            (Step::Starts, true) => {
                self.faults.add_if(event.tick < self.sends);
                self.faults.add_if(self.load == 0);
                self.load = self.load.saturating_sub(1);
                self.sends = self.sends.max(event.end);
            }
            (Step::Starts, false) => {
                self.faults.add_if(event.tick < self.receives);
                self.receives = self.receives.max(event.end);
            }
            (Step::Ends, true) => {}
            (Step::Ends, false) => self.load = self.load.wrapping_add(1),
        }
    }
}

// The end of a record's send.
fn end_of(job: &Job, bytes: [u8; 6]) -> Option<u64> {
    let record = Record::try_from(bytes).ok()?;
    let board = job.boards().get(usize::from(record.link))?;
    Some(record.end(board.cost))
}

// Whether a send has a link and a direction of the ring's: back is a direction in kind 3 only.
fn is_of(job: &Job, record: Record) -> bool {
    let way = record.direction == Direction::Forward || job.kind == Kind::TwoWay;
    way && usize::from(record.link) < job.boards().len()
}

// How many records are none of the ring's, or come before the one before them.
fn records_faults(job: &Job, records: &[[u8; 6]]) -> Count {
    let mut faults = Count::default();
    let mut before: Option<Record> = None;
    for bytes in records {
        let record = Record::try_from(*bytes).ok();
        let sound = record.is_some_and(|record| is_of(job, record));
        faults.add_if(!sound || record < before);
        before = record;
    }
    faults
}

// The records of each link.
fn runs_of(records: &[[u8; 6]]) -> [&[[u8; 6]]; MOST_BOARDS] {
    let none: &[[u8; 6]] = &[];
    let mut runs = [none; MOST_BOARDS];
    for run in records.chunk_by(|one, next| one[0] == next[0]) {
        if let Some(first) = run.first() {
            runs[usize::from(first[0]) % MOST_BOARDS] = run;
        }
    }
    runs
}

// A board of this load, with the link to the next board and the link from the one before, after all of its sends and receipts.
fn play_board<'a>(load: u16, ahead: Side<'a>, behind: Side<'a>) -> Watched {
    let mut board = Watched {
        load: load.into(),
        sends: 0,
        receives: 0,
        faults: Count::default(),
    };
    for event in (Events { ahead, behind }) {
        board.see(event);
    }
    board
}

// The faults of the boards' plays, and of their loads after.
fn boards_faults(job: &Job, records: &[[u8; 6]]) -> Count {
    let mut faults = Count::default();
    let runs = runs_of(records);
    let boards = job.boards();
    let (Some(last), Some(run)) = (boards.last(), front(&runs, boards.len()).last()) else {
        return faults;
    };
    let mut behind = Side::new(Direction::Back, last.cost, run);
    for (board, run) in boards.iter().zip(runs) {
        let ahead = Side::new(Direction::Forward, board.cost, run);
        let done = play_board(board.load, ahead, behind);
        faults.add(done.faults.0);
        faults.add_if(i64::from(done.load) != i64::from(board.after()));
        behind = Side {
            own: Direction::Back,
            ..ahead
        };
    }
    faults
}

// How many faults a plan of so many sends has; none where it is a valid schedule in the plan's order, and its head is right.
pub(crate) fn faults(job: &Job, moves: u32, plan: &[u8]) -> Count {
    let mut faults = Count::default();
    faults.add_if(plan.len() != length(moves));
    let Some((head, rest)) = plan.split_first_chunk::<HEAD>() else {
        return faults;
    };
    let [.., a, b, c, d, e, f, g, h] = *head;
    let (records, _) = rest.as_chunks::<6>();
    let finish = records
        .iter()
        .filter_map(|bytes| end_of(job, *bytes))
        .max()
        .unwrap_or(0);
    faults.add_if(u64::from(u32::from_be_bytes([a, b, c, d])) != finish);
    faults.add_if(u32::from_be_bytes([e, f, g, h]) != moves);
    faults.add(records_faults(job, records).0);
    if faults == Count::default() {
        return boards_faults(job, records);
    }
    faults
}
