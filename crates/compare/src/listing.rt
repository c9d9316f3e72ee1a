// What the function leaves in the list beside a plan, held to the player's lists board by board; and the function's refusals.
use crate::answer::{Answer, answer_of};
use crate::counts::Count;
use crate::job::{Job, MOST_BOARDS};
use crate::player::{COLUMNS, LATE_FINISH, LATE_PLAYS, LATE_SENDS, Player, SENDS, SPAN, Seat};
use crate::record::{HEAD, length};
use crate::second::{Outcome, Plan};
use crate::slices::{back, changed, differ, front, front_mut};
use crate::table::Refusal;
use crate::{Comparison, UNTOUCHED};

// What every place of the list is before it is lent.
pub(crate) const EMPTY: u32 = 2863311530;

// The boards passed so far: the columns, how often one is below the one before it on its board, and the differences. And the faults of the play before.
#[derive(Default, Drop)]
struct Passed {
    columns: Count,
    falls: Count,
    differences: Count,
    faults: Count,
}

// A call of the function: the bytes of a job, and how many bytes of a buffer and places of the list it is lent.
#[derive(Clone, Copy)]
struct Call<'a> {
    job: &'a [u8],
    room: usize,
    places: usize,
}

// How often a column is below the one before it.
fn falls(columns: &[u32]) -> usize {
    columns.windows(2).filter(|pair| pair[1] < pair[0]).count()
}

// The boards after the play beside their parts of the list.
fn pass_boards(job: &Job, player: &Player, list: &[u32]) -> Passed {
    let mut passed = Passed {
        faults: player.faults,
        ..Passed::default()
    };
    for (i, board) in job.boards().iter().enumerate() {
        let load = board.after().unsigned_abs() as usize;
        let columns = player.columns(i);
        let theirs = front(back(list, passed.columns.0), load);
        passed.columns.add(load);
        passed.falls.add(falls(columns));
        passed.differences.add(differ(columns, theirs));
    }
    passed
}

// A plan played to its finish over the rows, and the boards passed after it. The buffer and the list are then as they were.
fn played(
    job: &Job,
    outcome: Outcome,
    theirs: &mut [u8],
    list: &mut [u32],
    rows: &mut [u32],
) -> Passed {
    let mut seats = [Seat::EMPTY; MOST_BOARDS];
    let mut player = Player::new(job, front_mut(&mut seats, job.boards().len()), rows);
    let plan = front_mut(theirs, length(outcome.moves));
    let (records, _) = back(plan, HEAD).as_chunks::<6>();
    player.play(records, outcome.finish);
    let passed = pass_boards(job, &player, list);
    plan.fill(UNTOUCHED);
    front_mut(list, passed.columns.0).fill(EMPTY);
    passed
}

impl Comparison<'_> {
    // The function on the first bytes of a buffer and the first places of the list.
    fn listed(&mut self, call: Call) -> Answer {
        let buf = front_mut(self.theirs, call.room);
        let list = front_mut(self.list, call.places);
        answer_of(columns::columns(call.job, buf, list))
    }

    // How far the function is from refusing a job so, and from leaving all as it was.
    fn refusal_differs(&mut self, refusal: Refusal, call: Call) -> usize {
        let answer = self.listed(call);
        let bytes = changed(front(self.theirs, call.room), &UNTOUCHED);
        let list = changed(front(self.list, call.places), &EMPTY);
        usize::from(answer != Err(refusal.into()))
            .saturating_add(bytes)
            .saturating_add(list)
    }

    // One place too few for so many columns is refused with 16; and with 13 where the plan, of this length, has one byte too few as well.
    fn compare_short_list(&mut self, job: &[u8], length: usize, columns: usize) {
        let one_place = Call {
            job,
            room: length,
            places: columns.saturating_sub(1),
        };
        let both = Call {
            room: length.saturating_sub(1),
            ..one_place
        };
        let sixteen = self.refusal_differs(Refusal::List, one_place);
        let thirteen = self.refusal_differs(Refusal::Buffer, both);
        self.plays.sixteen.add_if(sixteen == 0);
        self.plays.short.add(2);
        self.plays.differences.add(sixteen);
        self.plays.differences.add(thirteen);
    }

    // A call's answer beside one of the second planner's, where the first so many places are to be filled.
    fn compare_answer(&mut self, answer: Answer, call: Call, columns: usize) {
        let theirs = self.listed(call);
        let differences = self.found(answer, theirs, call.room);
        let past = changed(front(back(self.list, columns), 4), &EMPTY);
        self.plays.differences.add(differences);
        self.plays.differences.add(past);
    }

    // The plan in `theirs` played, and counted.
    fn play_plan(&mut self, job: &Job, plan: &Plan) {
        let passed = played(job, plan.outcome, self.theirs, self.list, self.rows);
        self.plays.faults.add(passed.faults.0);
        self.plays.differences.add(passed.differences.0);
        self.plays
            .count_play(job, plan, passed.columns.0, passed.falls.0);
    }

    // Whether a plan has a finish past 16 bits and is played whatever its span.
    fn is_late(&self, plan: &Plan) -> bool {
        let outcome = plan.outcome;
        65535 < outcome.finish
            && outcome.finish <= LATE_FINISH
            && outcome.moves <= LATE_SENDS
            && self.plays.late.0 < LATE_PLAYS
    }

    // Whether a job's plan is too long to be played.
    fn is_too_long(&self, job: &Job, plan: &Plan) -> bool {
        let outcome = plan.outcome;
        // `moves` is cast, since the sum was not proved with `u64::from`.
        let span = SPAN * (job.boards().len() as u64) / (1 + outcome.moves as u64);
        if COLUMNS < job.columns() || SENDS < outcome.moves as usize {
            return true;
        }
        !self.is_late(plan) && span < u64::from(outcome.finish)
    }

    // A job that is refused. The list has 0 to 3 places.
    pub(crate) fn compare_refused_list(&mut self, job: &[u8], refusal: Refusal, room: usize) {
        let places = job.len() % 4;
        self.compare_answer(Err(refusal.into()), Call { job, room, places }, 0);
    }

    // A job that has a plan, which is in `mine`. The list has 0 to 3 places too many.
    pub(crate) fn compare_list(&mut self, bytes: &[u8], job: &Job, plan: &Plan, room: usize) {
        if self.is_too_long(job, plan) {
            return;
        }
        let columns = job.columns();
        let call = Call {
            job: bytes,
            room,
            places: columns.wrapping_add(columns % 4),
        };
        self.compare_short_list(bytes, length(plan.outcome.moves), columns);
        self.compare_answer(Ok(plan.outcome), call, columns);
        self.play_plan(job, plan);
    }
}
