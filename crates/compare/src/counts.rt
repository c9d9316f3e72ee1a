// What was compared, what differed and what the judge and the player found, as it is counted and printed.
use crate::job::{Job, Kind};
use crate::second::Plan;
use crate::table::Refusal;
use std::{fmt, io};

// How often something was so.
#[derive(Clone, Copy, Debug, Default, PartialEq, Eq, PartialOrd, Ord)]
pub(crate) struct Count(pub(crate) usize);

impl Count {
    pub(crate) fn add(&mut self, n: usize) {
        self.0 = self.0.wrapping_add(n);
    }

    // One more where it is so.
    pub(crate) fn add_if(&mut self, so: bool) {
        self.add(usize::from(so));
    }
}

impl fmt::Display for Count {
    fn fmt<W: fmt::Write>(&self, f: &mut fmt::Formatter<W>) -> fmt::Result {
        write!(f, "{}", self.0)
    }
}

// The plans with a load, and with a cost, at its limit.
#[derive(Default, Drop)]
struct Limits {
    loads: Count,
    costs: Count,
}

impl Limits {
    fn count(&mut self, job: &Job) {
        let mut boards = job.boards().iter();
        self.loads.add_if(boards.any(|board| board.load == 4095));
        let mut boards = job.boards().iter();
        self.costs.add_if(boards.any(|board| board.cost == 8000));
    }
}

// The plans of the rings, compared and judged.
#[derive(Default, Drop)]
pub(crate) struct Counts {
    pub(crate) judged: [Count; 4],
    waiting: Count,
    // plans whose tight link carries fewer items than another, and in which another link is as tight
    lighter: Count,
    equals: Count,
    limits: Limits,
    // plans with a finish past 16 and 24 bits
    past16: Count,
    past24: Count,
    sends: Count,
    refused: [Count; 16],
    // refusals of another board than board 0
    elsewhere: Count,
    pub(crate) damaged: Count,
    short: Count,
    pub(crate) differences: Count,
    pub(crate) invalid: Count,
}

// The plans that were played over the columns.
#[derive(Default, Drop)]
pub(crate) struct Plays {
    played: [Count; 4],
    boards: Count,
    columns: Count,
    // plays in which a board waits, and in which a list wraps: a board's columns do not rise
    waiting: Count,
    wrapped: Count,
    // plays of 128 boards, and with more than 65,536 columns
    widest: Count,
    longest: Count,
    // of plays with sends
    limits: Limits,
    // plays with a finish past 16 bits
    pub(crate) late: Count,
    // answers 16, and lists that were one place short
    pub(crate) sixteen: Count,
    pub(crate) short: Count,
    pub(crate) faults: Count,
    pub(crate) differences: Count,
}

impl Counts {
    pub(crate) fn count_refusal(&mut self, refusal: Refusal) {
        self.refused[usize::from(refusal.number()) % 16].add(1);
        self.elsewhere.add_if(0 < refusal.board());
    }

    pub(crate) fn count_plan(&mut self, job: &Job, plan: &Plan) {
        let outcome = plan.outcome;
        self.waiting.add_if(0 < plan.waits);
        self.lighter.add_if(0 < plan.lighter);
        self.equals.add_if(0 < plan.equals);
        self.limits.count(job);
        self.past16.add_if(65535 < outcome.finish);
        self.past24.add_if(16777215 < outcome.finish);
        self.sends.add(outcome.moves as usize);
        self.short.add(1);
    }

    pub(crate) fn print(&self, rt: &impl Print) -> io::Result<()> {
        for kind in Kind::ALL {
            let number = kind as usize;
            println!(rt; "plans judged of kind {number}: {}", self.judged[number])?;
        }
        println!(rt; "plans in which a board waits: {}", self.waiting)?;
        println!(rt;
            "plans whose tight link carries fewer items than another: {}",
            self.lighter
        )?;
        println!(rt; "plans in which another link is as tight: {}", self.equals)?;
        println!(rt; "plans with a load of 4095: {}", self.limits.loads)?;
        println!(rt; "plans with a cost of 8000: {}", self.limits.costs)?;
        println!(rt; "plans with a finish past 16 bits: {}", self.past16)?;
        println!(rt; "plans with a finish past 24 bits: {}", self.past24)?;
        println!(rt; "sends: {}", self.sends)?;
        self.print_refusals(rt)?;
        println!(rt; "refusals of a board other than 0: {}", self.elsewhere)?;
        println!(rt; "damaged jobs: {}", self.damaged)?;
        println!(rt; "buffers a byte short: {}", self.short)?;
        println!(rt; "differences: {}", self.differences)?;
        println!(rt; "plans that are no valid schedule: {}", self.invalid)
    }

    // Refusals 1 to 11 and 13; 12 is never given.
    fn print_refusals(&self, rt: &impl Print) -> io::Result<()> {
        for number in [1, 2, 3, 4, 5, 6, 7, 8, 9, 10, 11, 13] {
            println!(rt; "refused {number}: {}", self.refused[number])?;
        }
        Ok(())
    }
}

impl Plays {
    // A play of which so many columns were compared, of which so many are below the one before.
    pub(crate) fn count_play(&mut self, job: &Job, plan: &Plan, columns: usize, falls: usize) {
        self.played[job.kind as usize].add(1);
        self.boards.add(job.boards().len());
        self.columns.add(columns);
        self.waiting.add_if(0 < plan.waits);
        self.wrapped.add_if(0 < falls);
        self.widest.add_if(job.boards().len() == 128);
        self.longest.add_if(65536 < columns);
        if plan.outcome.moves != 0 {
            self.limits.count(job);
        }
        self.late.add_if(65535 < plan.outcome.finish);
    }

    pub(crate) fn print(&self, rt: &impl Print) -> io::Result<()> {
        for kind in Kind::ALL {
            let number = kind as usize;
            println!(rt; "plans played of kind {number}: {}", self.played[number])?;
        }
        println!(rt; "boards compared: {}", self.boards)?;
        println!(rt; "columns compared: {}", self.columns)?;
        println!(rt; "plays in which a board waits: {}", self.waiting)?;
        println!(rt; "plays in which a list wraps: {}", self.wrapped)?;
        println!(rt; "plays of 128 boards: {}", self.widest)?;
        println!(rt; "plays with more than 65536 columns: {}", self.longest)?;
        println!(rt;
            "plays with sends and a load of 4095: {}",
            self.limits.loads
        )?;
        println!(rt;
            "plays with sends and a cost of 8000: {}",
            self.limits.costs
        )?;
        println!(rt; "plays with a finish past 16 bits: {}", self.late)?;
        println!(rt; "refused 16: {}", self.sixteen)?;
        println!(rt; "lists a place short: {}", self.short)?;
        println!(rt; "faults of play: {}", self.faults)?;
        println!(rt; "differences in columns: {}", self.differences)
    }
}
