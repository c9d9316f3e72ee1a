// The player: a plan's records played tick by tick over lists of column numbers, in the words of document 02's order 1. It knows the plan's
// bytes and the job's loads and costs, and nothing of where a column has to end.
use crate::counts::Count;
use crate::job::{Board, Job, MOST_BOARDS};
use crate::record::{Direction, Record};
use std::mem;

// The longest play: its columns, its sends, and for each board its span, which is its finish times one more than its sends. How many plays there
// are, and how many of them reach a limit, is printed.
pub(crate) const COLUMNS: usize = 131072;

pub(crate) const SENDS: usize = 2048;

pub(crate) const SPAN: u64 = 4000;

// Whatever their span, the first so many plans with a finish past 16 bits are played that have at most so many sends and so late a finish.
pub(crate) const LATE_PLAYS: usize = 64;

pub(crate) const LATE_SENDS: u32 = 24;

pub(crate) const LATE_FINISH: u32 = 300000;

// The boards' lists stand in one, in a row for each board, where its list has as many places free on either side as there are sends. They are no
// `VecDeque`s, since the program plays in fixed memory: a list that could not grow would end the comparison.
pub(crate) const ROWS: usize = 2 * MOST_BOARDS * SENDS + COLUMNS;

// Where a board's list begins, and the place after its last column.
#[derive(Clone, Copy)]
struct Row {
    first: usize,
    end: usize,
}

// A board and its link: its list, the link's cost, and the columns that are under way on the link, forward and back.
#[derive(Clone, Copy)]
pub(crate) struct Seat {
    row: Row,
    cost: u16,
    ways: [Option<u32>; 2],
}

// The boards in play, the rows, and the faults so far.
#[derive(Drop)]
pub(crate) struct Player<'a> {
    seats: &'a mut [Seat],
    rows: &'a mut [u32],
    pub(crate) faults: Count,
}

impl Row {
    // Each takes the first or the last column from the list, or gives a place to put one first or last.
    fn take_first(&mut self) -> Option<usize> {
        if self.end <= self.first {
            return None;
        }
        self.first += 1;
        Some(self.first - 1)
    }

    fn take_last(&mut self) -> Option<usize> {
        if self.end <= self.first {
            return None;
        }
        self.end -= 1;
        Some(self.end)
    }

    fn put_first(&mut self) -> usize {
        self.first = self.first.wrapping_sub(1);
        self.first
    }

    fn put_last(&mut self) -> usize {
        let place = self.end;
        self.end = place.wrapping_add(1);
        place
    }
}

// So many columns, numbered from one on.
fn number(row: &mut [u32], first: u32) {
    for (place, column) in row.iter_mut().zip(first..) {
        *place = column;
    }
}

// What is done with each of a plan's records.
fn each<F: FnMut(Record) + Drop>(records: &[[u8; 6]], mut act: F)
    requires { F.IsAlwaysCallable act }
{
    for bytes in records {
        if let Ok(record) = Record::try_from(*bytes) {
            act(record);
        }
    }
}

impl Seat {
    pub(crate) const EMPTY: Seat = Seat {
        row: Row { first: 0, end: 0 },
        cost: 0,
        ways: [None; 2],
    };

    // A board at the beginning, whose row starts at a place and whose columns are numbered from one on.
    fn new(board: &Board, start: usize, column: u32, rows: &mut [u32]) -> Self {
        let first = start.wrapping_add(SENDS);
        let end = first.wrapping_add(usize::from(board.load));
        if let Some(row) = rows.get_mut(first..end) {
            number(row, column);
        }
        Seat {
            row: Row { first, end },
            cost: board.cost,
            ways: [None; 2],
        }
    }
}

impl<'a> Player<'a> {
    // The boards as a play begins, their columns numbered from 0, board 0's first.
    pub(crate) fn new(job: &Job, seats: &'a mut [Seat], rows: &'a mut [u32]) -> Self {
        let mut start: usize = 0;
        let mut column: u32 = 0;
        for (place, board) in seats.iter_mut().zip(job.boards()) {
            *place = Seat::new(board, start, column, rows);
            start = place.row.end.wrapping_add(SENDS);
            column = column.wrapping_add(board.load.into());
        }
        Player {
            seats,
            rows,
            faults: Count::default(),
        }
    }

    // The columns of board i.
    pub(crate) fn columns(&self, i: usize) -> &[u32] {
        let row = self.seats.get(i).map(|seat| seat.row);
        row.and_then(|row| self.rows.get(row.first..row.end))
            .unwrap_or(&[])
    }

    // The board that a link leads to.
    fn next(&self, link: usize) -> usize {
        if link.wrapping_add(1) < self.seats.len() {
            link.wrapping_add(1)
        } else {
            0
        }
    }

    // A forward send takes the board's last column, and a back send its first.
    fn take(&mut self, record: Record) -> Option<u32> {
        let link = usize::from(record.link);
        let next = self.next(link);
        let place = match record.direction {
            Direction::Forward => self.seats.get_mut(link)?.row.take_last()?,
            Direction::Back => self.seats.get_mut(next)?.row.take_first()?,
        };
        self.rows.get(place).copied()
    }

    // The board puts a column that came forward first, and one that came back last.
    fn put(&mut self, record: Record, column: u32) -> Option<()> {
        let link = usize::from(record.link);
        let next = self.next(link);
        let place = match record.direction {
            Direction::Forward => self.seats.get_mut(next)?.row.put_first(),
            Direction::Back => self.seats.get_mut(link)?.row.put_last(),
        };
        *self.rows.get_mut(place)? = column;
        Some(())
    }

    // What is under way on a record's link in its direction, in whose place comes another.
    fn replace(&mut self, record: Record, column: Option<u32>) -> Option<u32> {
        let seat = self.seats.get_mut(usize::from(record.link))?;
        mem::replace(&mut seat.ways[record.direction as usize], column)
    }

    // A send starts: the board has a column, and the link holds none.
    fn depart(&mut self, record: Record) {
        let column = self.take(record);
        let held = self.replace(record, column);
        self.faults.add_if(held.is_some() || column.is_none());
    }

    // A send ends: the link holds a column, and the board has a place for it.
    fn arrive(&mut self, record: Record) {
        let put = self
            .replace(record, None)
            .and_then(|column| self.put(record, column));
        self.faults.add_if(put.is_none());
    }

    fn end_of(&self, record: Record) -> Option<u64> {
        Some(record.end(self.seats.get(usize::from(record.link))?.cost))
    }

    // All arrivals of tick t.
    fn arrivals(&mut self, records: &[[u8; 6]], t: u64) {
        each(records, |record| {
            if self.end_of(record) == Some(t) {
                self.arrive(record);
            }
        });
    }

    // All sends of tick t.
    fn departures(&mut self, records: &[[u8; 6]], t: u64) {
        each(records, |record| {
            if u64::from(record.start) == t {
                self.depart(record);
            }
        });
    }

    // A plan's records played from tick 0 to its finish: at each tick the arrivals, then the sends.
    pub(crate) fn play(&mut self, records: &[[u8; 6]], finish: u32) {
        for t in 0..=u64::from(finish) {
            self.arrivals(records, t);
            self.departures(records, t);
        }
    }
}
