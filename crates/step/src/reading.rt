// A line is read: its verdict, and what a record that passes its edits leaves in the state and
// writes.
#![tactic(auto, unfolding(crate::specs::Moves::line_seen))]

ghost use Rattle.std.specs.Prelude.{◌+◌, ◌<◌, ◌^◌, ◌⊎◌, false, ◌≡◌};
ghost use Rattle.lines.specs.Lines.{first_line};
ghost use Rattle.shape.specs.After.{filed_after, entry_at_e, none_open, one_used};
ghost use Rattle.state.specs.Unfit.{unfit};
ghost use Rattle.state.specs.Walks.{reading, walk_of};
ghost use Rattle.step.specs.Moves.{moved_by, all_well, after as after_of, walk_after, goes_on, context_of, by_standing, line_seen};
ghost use Rattle.step.specs.Ready.{Ready};

use crate::{Change, Move};
use calendar::Quarter;
use edits::{Context, Open, Phase, Seen, Totals};
use reason::{Broken, Reason};
use shape::{EmployeeOn, EmployerOn, Note, Said};
use state::{Stage, State, fitness};
use tables::Employer;

// One line more, and the next is met in this phase.
fn one_line(st: State, phase: Phase) -> State
    requires { st.lines < 4294967295 }
    ensures { walk_of result ≡ after_of (walk_of st) phase st.filed st.open st.all st.used }
{
    State {
        stage: Stage::Reading(phase),
        lines: st.lines + 1,
        ..st
    }
}

// One line more, and no E is open, nor an id in use.
fn no_employer(st: State, phase: Phase) -> State
    requires { st.lines < 4294967295 }
    ensures { walk_of result ≡ after_of (walk_of st) phase st.filed none_open st.all 0 }
{
    State {
        open: state::none_open(),
        used: 0,
        ..one_line(st, phase)
    }
}

// The line is taken: so many bytes, with its end.
fn moves(state: State, taken: usize, change: Change) -> Move
    ensures { moved_by result ≡ record { says = all_well; taken = taken; walk = walk_of state; change = change } }
{
    crate::answers(Ok(taken), state, change)
}

// The entry that E begins: no S record yet.
fn entry_at_e(e: EmployerOn) -> Employer
    ensures { result ≡ entry_at_e e }
{
    Employer {
        fein: e.fein,
        count: 0,
        cents: 0,
        amended: e.amended,
        final_return: e.final_return,
        cease_date: e.cease_date,
    }
}

// The quarter that the file reports, after E.
fn filed_after(e: EmployerOn, filed: Quarter) -> Quarter
    ensures { result ≡ filed_after (Said.OfE e) filed }
{
    e.files.unwrap_or(filed)
}

// E
fn employer(st: State, taken: usize, e: EmployerOn) -> Move
    requires { Ready (walk_of st) (Said.OfE e) }
    ensures { moved_by result ≡ goes_on (walk_of st) taken (Said.OfE e) }
{
    let next = State {
        filed: filed_after(e, st.filed),
        open: Open {
            fein: e.fein,
            follow: e.follow,
            account_head: e.account_head,
            account_tail: e.account_tail,
            ..state::none_open()
        },
        all: Totals {
            employers: st.all.employers + 1,
            ..st.all
        },
        ..no_employer(st, Phase::EOpen)
    };
    let begun = Change::Opens(st.all.employers as usize, entry_at_e(e));
    moves(next, taken, begun)
}

// How many ids are in use with this one. 0 takes no room.
fn one_used(used: usize, id: u64) -> usize
    requires { (id ≡ 0) ⊎ (used + 1 < 2 ^ 64) }
    ensures { result ≡ one_used used id }
{
    if id == 0 { used } else { used + 1 }
}

// The state with one S more.
fn with_one(st: State, s: EmployeeOn) -> State
    requires { Ready (walk_of st) (Said.OfS s) }
    ensures { walk_of result ≡ walk_after (Said.OfS s) (walk_of st) }
{
    State {
        open: Open {
            count: st.open.count + 1,
            sum: st.open.sum + s.wages,
            second: st.open.second + s.second,
            ..st.open
        },
        all: Totals {
            count: st.all.count + 1,
            sum: st.all.sum + s.wages,
            second: st.all.second + s.second,
            ..st.all
        },
        used: one_used(st.used, s.id),
        ..one_line(st, Phase::EOpen)
    }
}

// S
fn employee(st: State, taken: usize, s: EmployeeOn) -> Move
    requires { Ready (walk_of st) (Said.OfS s) }
    ensures { moved_by result ≡ goes_on (walk_of st) taken (Said.OfS s) }
{
    let next = with_one(st, s);
    if s.id == 0 {
        return moves(next, taken, Change::Nothing);
    }
    moves(next, taken, Change::Adds(st.used, s.id as u32))
}

// T
fn total(st: State, taken: usize) -> Move
    requires { Ready (walk_of st) Said.OfT }
    ensures { moved_by result ≡ goes_on (walk_of st) taken Said.OfT }
{
    let last = (st.all.employers - 1) as usize;
    moves(
        no_employer(st, Phase::AfterT),
        taken,
        Change::Closes(st.used, last, st.open.count, st.open.sum),
    )
}

// A record under an E that is no S.
fn noted(st: State, taken: usize, note: Note) -> Move
    requires { Ready (walk_of st) (Said.OfNote note) }
    ensures { moved_by result ≡ goes_on (walk_of st) taken (Said.OfNote note) }
{
    let next = State {
        all: Totals {
            others: st.all.others + 1,
            ..st.all
        },
        ..one_line(st, state::phase_of(st.stage))
    };
    moves(next, taken, Change::Nothing)
}

// The record says what it says: the walk goes on after its line. A line of no record never passes.
fn go_on(st: State, taken: usize, said: Said) -> Move
    requires { Ready (walk_of st) said }
    ensures { moved_by result ≡ goes_on (walk_of st) taken said }
{
    let next = match said {
        Said::OfA(filed) => State {
            filed,
            ..no_employer(st, Phase::AfterA)
        },
        Said::OfE(e) => return employer(st, taken, e),
        Said::OfS(s) => return employee(st, taken, s),
        Said::OfT => return total(st, taken),
        Said::OfF => no_employer(st, Phase::AfterF),
        Said::OfNote(note) => return noted(st, taken, note),
        Said::OfNone => no_employer(st, state::phase_of(st.stage)),
    };
    moves(next, taken, Change::Nothing)
}

fn context(st: State, phase: Phase, ids: usize, list: usize) -> Context
    ensures { result ≡ context_of (record { ids = ids; list = list }) (walk_of st) phase }
{
    Context {
        phase,
        held: st.held,
        filed: st.filed,
        open: st.open,
        all: st.all,
        ids_full: ids <= st.used,
        list_full: fitness::entries_used(list) <= st.all.employers,
    }
}

fn read_line(st: State, phase: Phase, bytes: &[u8], seen: Seen, ids: usize, list: usize) -> Move
    requires { (st.stage ≡ Stage.Reading phase) × (unfit (record { ids = ids; list = list }) (walk_of st) ≡ false) }
    ensures { moved_by result ≡ by_standing (record { ids = ids; list = list }) seen (first_line bytes.now) (walk_of st) (reading phase) }
{
    let here = context(st, phase, ids, list);
    match record::judge(here, seen, bytes) {
        Ok((taken, said)) => go_on(st, taken, said),
        Err(Broken(column, reason)) => crate::refuse(st, column, reason),
    }
}

// One line, when it is known whether its FEIN or its identity number was seen before; the call is
// lent tables of these lengths.
pub fn line_seen(st: State, bytes: &[u8], seen: Seen, ids: usize, list: usize) -> Move
    ensures { moved_by result ≡ line_seen (record { ids = ids; list = list }) seen (walk_of st) (first_line bytes.now) }
{
    if fitness::is_unfit(st, ids, list) {
        return crate::stays(st, Reason::StateUnfit);
    }
    match st.stage {
        Stage::Reading(phase) => read_line(st, phase, bytes, seen, ids, list),
        Stage::Accepted => crate::stays(st, Reason::WalkEnded),
        Stage::Refused(refusal) => crate::again(st, refusal),
    }
}
