// Plans many rings twice, by the planner and by the second planner, and compares answers and bytes; judges the planner's plans; and plays them
// over the columns.
#![tactic(auto)]

mod answer;
mod counts;
mod damage;
mod job;
mod judge;
mod listing;
mod player;
mod record;
mod rings;
mod second;
mod slices;
mod table;

use answer::{Answer, answer_of};
use counts::{Counts, Plays};
use damage::{Aim, Bytes, Way};
use job::Job;
use record::length;
use rings::Draws;
use second::{Outcome, Plan};
use slices::{back, changed, differ, front, front_mut};
use std::io;
use table::Refusal;

// What every byte of a buffer is before it is lent.
const UNTOUCHED: u8 = 170;

// The rings that are drawn.
const RINGS: usize = 24000;

// The second planner's plan of any bytes.
fn second_plan(bytes: &[u8], mine: &mut [u8]) -> Result<(Job, Plan), Refusal> {
    let job = table::read(bytes)?;
    let plan = second::plan_of(&job, mine)?;
    Ok((job, plan))
}

// The comparison so far, and what is lent: a buffer to the second planner, a buffer and a list to the planner, and the player's rows.
#[derive(Drop)]
struct Comparison<'a> {
    counts: Counts,
    plays: Plays,
    mine: &'a mut [u8],
    theirs: &'a mut [u8],
    list: &'a mut [u32],
    rows: &'a mut [u32],
}

impl Comparison<'_> {
    // The planner on the first bytes of a buffer.
    fn planned(&mut self, job: &[u8], room: usize) -> Answer {
        answer_of(planner::plan(job, front_mut(self.theirs, room)))
    }

    // What differs after both have planned a job: the answers, the bytes lent, and those past the plan's end that are not as they were.
    fn found(&self, mine: Answer, theirs: Answer, room: usize) -> usize {
        let written = mine.map_or(0, |outcome| length(outcome.moves));
        let lent = front(self.mine, room);
        usize::from(mine != theirs)
            .saturating_add(differ(lent, front(self.theirs, room)))
            .saturating_add(changed(back(lent, written), &UNTOUCHED))
    }

    // The planner's plan judged and counted by its kind, where it gave one.
    fn judge(&mut self, job: &Job, answer: Answer) {
        let Ok(Outcome { moves, .. }) = answer else {
            return;
        };
        let faults = judge::faults(job, moves, front(self.theirs, length(moves)));
        self.counts.judged[job.kind as usize].add(1);
        self.counts.invalid.add_if(0 < faults.0);
    }

    // One byte too few for a plan of this length: the planner refuses, and no byte changes.
    fn compare_short(&mut self, job: &[u8], length: usize) {
        let answer = self.planned(job, length.saturating_sub(1));
        let differences = changed(front(self.theirs, length), &UNTOUCHED);
        self.counts
            .differences
            .add_if(answer != Err(Refusal::Buffer.into()));
        self.counts.differences.add(differences);
    }

    // A job that has a plan, which is in `mine`. The planner is lent 0 to 8 bytes more than the plan's. A play that was given up differs from every
    // answer.
    fn compare_plan(&mut self, bytes: &[u8], job: &Job, plan: &Plan) {
        let outcome = plan.outcome;
        let written = length(outcome.moves);
        let room = written + (8 - outcome.moves % 9) as usize;
        self.counts.count_plan(job, plan);
        let answer = self.planned(bytes, room);
        let differences = self.found(Ok(outcome), answer, room);
        self.counts.differences.add(differences);
        self.counts.differences.add(plan.left as usize);
        self.judge(job, answer);
        front_mut(self.theirs, room).fill(UNTOUCHED);
        self.compare_short(bytes, written);
        self.compare_list(bytes, job, plan, room);
        front_mut(self.mine, written).fill(UNTOUCHED);
    }

    // A job that is refused. The planner is lent all bytes for a plan that is longer than the buffer, else 8.
    fn compare_refused(&mut self, bytes: &[u8], refusal: Refusal) {
        let room = match refusal {
            Refusal::Buffer => self.theirs.len(),
            _ => 8,
        };
        self.counts.count_refusal(refusal);
        let answer = self.planned(bytes, room);
        let differences = self.found(Err(refusal.into()), answer, room);
        self.counts.differences.add(differences);
        front_mut(self.theirs, room).fill(UNTOUCHED);
        self.compare_refused_list(bytes, refusal, room);
    }

    // One job.
    fn compare(&mut self, bytes: &[u8]) {
        match second_plan(bytes, self.mine) {
            Ok((job, plan)) => self.compare_plan(bytes, &job, &plan),
            Err(refusal) => self.compare_refused(bytes, refusal),
        }
    }

    // How far the job writer's bytes differ from a ring's job. One that it refuses differs.
    fn compare_writer(&mut self, ring: &Job, job: &Bytes) {
        let mut theirs = [0u8; 800];
        let length = rings::write(ring, &mut theirs);
        let bytes = job.as_slice();
        let differences = differ(bytes, front(&theirs, bytes.len()));
        let past = changed(back(&theirs, bytes.len()), &0);
        self.counts.differences.add_if(length != Some(bytes.len()));
        self.counts.differences.add(differences);
        self.counts.differences.add(past);
    }

    // Ring r: its job whole, and damaged in every way. Its jobs are damaged for refusals 7 to 11 by turns.
    fn compare_ring(&mut self, draws: &mut Draws, r: usize) {
        let ring = rings::draw_ring(draws, r);
        let job = Bytes::of(&ring);
        self.compare_writer(&ring, &job);
        for way in Way::ALL {
            let damaged = job.damaged(draws, way, Aim::ALL[r % 5]);
            self.compare(damaged.as_slice());
            self.counts.damaged.add_if(way != Way::Whole);
        }
    }

    fn compare_all(&mut self) {
        let mut draws = Draws::new();
        for r in 0..RINGS {
            self.compare_ring(&mut draws, r);
        }
    }
}

fn main(rt: HostRuntime) -> io::Result<()> {
    let mut comparison = Comparison {
        counts: Counts::default(),
        plays: Plays::default(),
        mine: &mut [UNTOUCHED; 65535],
        theirs: &mut [UNTOUCHED; 65535],
        list: &mut [listing::EMPTY; player::COLUMNS + 16],
        rows: &mut [0; player::ROWS],
    };
    comparison.compare_all();
    comparison.counts.print(&rt)?;
    comparison.plays.print(&rt)
}
