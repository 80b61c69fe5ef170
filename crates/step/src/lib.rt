// What opening, one line and the end answer and write, decided over values before any table is
// touched.
#![tactic(auto, unfolding(crate::specs::Moves::end_moved, crate::specs::Moves::open_moved))]

pub mod line;
mod reading;

ghost use Rattle.std.specs.Prelude.{◌<◌, ◌≡◌};
ghost use Rattle.reason.specs.ReasonNumbers.{number_of, notice_of};
ghost use Rattle.edits.specs.Formats.{opening_number};
ghost use Rattle.state.specs.Walks.{walk_of, reading};
ghost use Rattle.step.specs.Moves.{notice_in, taken_in, moved_by, stays as stays_of, again as again_of, refuses, accepts, end_standing, end_moved, open_moved};

use edits::{Opening, Phase, format};
use reason::{Broken, Reason, Refusal};
use state::{Stage, State, fitness};
use tables::Employer;

// What a call answers: the bytes taken, 0 at an end call; or a refusal.
pub type Reply = Result<usize, Refusal>;

// The bytes that a line took, 0 if it was refused.
pub fn taken_in(reply: Reply) -> usize
    ensures { result ≡ taken_in reply }
{
    reply.unwrap_or(0)
}

// What a call hands back: the reply, and the state for the next call. The state stands last, so
// that no place after it is reckoned from its size.
#[derive(Clone, Copy)]
pub struct Answer {
    pub reply: Reply,
    pub state: State,
}

// What a call writes into the lent tables.
#[derive(Clone, Copy)]
pub enum Change {
    Nothing,
    // Both tables zeroed, every entry.
    Clear,
    // The employer list gets an entry at a place.
    Opens(usize, Employer),
    // The id table's entry at a place gets an identity number.
    Adds(usize, u32),
    // The first so many ids zeroed; the list's entry at a place gets its count and cents.
    Closes(usize, usize, u64, u64),
}

#[derive(Clone, Copy)]
pub struct Move {
    pub change: Change,
    pub answer: Answer,
}

// What a call answers, the state for the next call, and what it writes.
fn answers(reply: Reply, state: State, change: Change) -> Move
    ensures { moved_by result ≡ record { says = notice_in reply; taken = taken_in reply; walk = walk_of state; change = change } }
{
    Move {
        change,
        answer: Answer { reply, state },
    }
}

// 71 and 72: nothing changed.
fn stays(st: State, reason: Reason) -> Move
    ensures { moved_by result ≡ stays_of (number_of reason) (walk_of st) }
{
    let refusal = Refusal {
        line: 0,
        column: 0,
        reason,
    };
    answers(Err(refusal), st, Change::Nothing)
}

// A refused walk: answered again, both tables zeroed again, but for 70 and 73.
fn again(st: State, refusal: Refusal) -> Move
    ensures { moved_by result ≡ again_of (notice_of refusal) (walk_of st) }
{
    if fitness::is_of_opening(u8::from(refusal.reason)) {
        return answers(Err(refusal), st, Change::Nothing);
    }
    answers(Err(refusal), st, Change::Clear)
}

// A refusal at the line after those read: the walk ends, both tables are zeroed.
fn refuse(st: State, column: u16, reason: Reason) -> Move
    requires { st.lines < 4294967295 }
    ensures { moved_by result ≡ refuses (walk_of st) column (number_of reason) }
{
    let refusal = Refusal {
        line: st.lines + 1,
        column,
        reason,
    };
    let ended = state::refused(st.held.format, refusal);
    answers(Err(refusal), ended, Change::Clear)
}

// The file is accepted: the state keeps all as it is after F, the phase apart.
fn accept(st: State) -> Move
    ensures { moved_by result ≡ accepts (walk_of st) }
{
    let accepted = State {
        stage: Stage::Accepted,
        ..st
    };
    answers(Ok(0), accepted, Change::Nothing)
}

fn end_reading(st: State, phase: Phase) -> Move
    requires { st.lines < 4294967295 }
    ensures { moved_by result ≡ end_standing (walk_of st) (reading phase) }
{
    match shape::end_edit(phase) {
        Ok(()) => accept(st),
        Err(Broken(column, reason)) => refuse(st, column, reason),
    }
}

// The end of the input, for a call that is lent tables of these lengths.
pub fn end_move(st: State, ids: usize, list: usize) -> Move
    ensures { moved_by result ≡ end_moved (record { ids = ids; list = list }) (walk_of st) }
{
    if fitness::is_unfit(st, ids, list) {
        return stays(st, Reason::StateUnfit);
    }
    match st.stage {
        Stage::Reading(phase) => end_reading(st, phase),
        Stage::Accepted => stays(st, Reason::WalkEnded),
        Stage::Refused(refusal) => again(st, refusal),
    }
}

// Why a walk may not be opened so: 70 for the quarter, after it 73 for the format.
fn opening_reason(held: Opening) -> Reason
    ensures { number_of result ≡ opening_number held }
{
    if calendar::is_allowed(format::quarter_held(held)) {
        return Reason::UnknownFormat;
    }
    Reason::BadQuarter
}

// Opening: a bad quarter is 70, a format that is none 73, and nothing is touched.
pub fn open_move(held: Opening) -> Move
    ensures { moved_by result ≡ open_moved held }
{
    if format::may_open(held) {
        return answers(Ok(0), state::opened(held), Change::Clear);
    }
    let refusal = Refusal {
        line: 0,
        column: 0,
        reason: opening_reason(held),
    };
    let refused = state::refused(held.format, refusal);
    answers(Err(refusal), refused, Change::Nothing)
}
