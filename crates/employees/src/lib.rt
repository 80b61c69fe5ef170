// The fast path, for a run: PFML's S records under one employer, each found good by one sweep.
#![tactic(auto)]

mod marks;

ghost use Rattle.std.specs.Prelude.{◌+◌, ◌≤◌, ◌<◌, ◌^◌, not, ◌&&◌, ◌||◌, ◌⊎◌, ◌≡◌, eqb, ltb, length, take, drop};
ghost use Rattle.tables.specs.Tables.{is_among};
ghost use Rattle.state.specs.Walks.{walk_of};
ghost use Rattle.shape.specs.declared.Said.TheVariants.{OfS};
ghost use Rattle.step.specs.Moves.{walk_after, change_by};
ghost use Rattle.step.specs.Ready.{Ready};
ghost use Rattle.step.specs.Steps.{ids_after};
ghost use Rattle.employees.specs.Marks.{Covers};
ghost use Rattle.employees.specs.Runs.{awaits, is_new, has_room, said_in, reaches, reached_by, left_by, behind};
ghost use Rattle.employees.specs.RunLaws.{Prepared, onward};

use edits::{Open, Phase, Totals, format};
use pfml::fitness::MOST_LINES;
use plain::{RECORD, Sighted};
use shape::EmployeeOn;
use state::{Stage, State, fitness};
use step::Answer;

// The lowest and the highest character that each column of the employer's S records may hold.
#[derive(Clone, Copy)]
struct Template {
    low: [u8; RECORD],
    high: [u8; RECORD],
}

// Where a run stopped: at a place of the bytes, in a state.
#[derive(Clone, Copy)]
pub struct Run {
    pub state: State,
    pub at: usize,
}

// Whether a walk takes S records at all: it is of PFML, an E is open that says that they follow,
// and the state is fit.
fn awaits(st: State, ids: usize, list: usize) -> bool
    ensures { result ≡ awaits (record { ids = ids; list = list }) (walk_of st) }
{
    format::is_pfml(st.held.format)
        && fitness::is_open(st.stage)
        && st.open.follow
        && !fitness::is_unfit(st, ids, list)
        && plain::fits(st.open.fein, st.filed)
}

// One line more, and one S record more.
fn has_room(st: State) -> bool
    ensures { result ≡ has_room (walk_of st) }
{
    st.all.count < shape::MOST_EMPLOYEES && st.lines < MOST_LINES
}

// The identity number is none, or new and there is room for it. It is looked for only where it is
// marked.
fn is_new(ids: &[u32], used: usize, marks: &[u8], id: u64) -> bool
    requires { (id < 4294967296) × Covers marks.now (take used ids.now) }
    ensures { result ≡ (eqb id 0 || (ltb used (length ids.now) && not (is_among id (take used ids.now)))) }
{
    if id == 0 {
        return true;
    }
    if ids.len() <= used {
        return false;
    }
    !(marks::is_marked(marks, id) && tables::ids::has(ids, used, id as u32))
}

// Whether the line is taken by a walk that awaits S records.
fn takes(st: State, s: Sighted, ids: &[u32], marks: &[u8]) -> bool
    requires { (s.id < 4294967296) × Covers marks.now (take st.used ids.now) }
    ensures { result ≡ (has_room (walk_of st) && is_new (walk_of st) ids.now s.id) }
{
    has_room(st) && is_new(ids, st.used, marks, s.id)
}

// What an S record of PFML says: it has no second amount.
fn said_in(s: Sighted) -> EmployeeOn
    ensures { result ≡ record { id = s.id; wages = s.wages; second = 0 } }
{
    EmployeeOn {
        id: s.id,
        wages: s.wages,
        second: 0,
    }
}

// The state with one S more, as `step` makes it of a line that is judged. It stands here too, since
// it asks that the state is ready for the record, and a public function asks nothing of its caller.
fn with_one(st: State, s: EmployeeOn) -> State
    requires { Ready (walk_of st) (OfS s) }
    ensures { walk_of result ≡ walk_after (OfS s) (walk_of st) }
{
    State {
        stage: Stage::Reading(Phase::EOpen),
        lines: st.lines + 1,
        open: Open {
            count: st.open.count + 1,
            sum: st.open.sum + s.wages,
            second: st.open.second + s.second,
            ..st.open
        },
        all: Totals {
            count: st.all.count + 1,
            sum: st.all.sum + s.wages,
            second: st.all.second + s.second,
            ..st.all
        },
        used: if s.id == 0 { st.used } else { st.used + 1 },
        ..st
    }
}

// Its identity number after those in use; 0 takes no room.
fn keep(ids: &mut [u32], st: State, s: Sighted)
    requires { s.id < 4294967296 }
    ensures { ids.new ≡ ids_after (change_by (said_in s) (walk_of st)) ids.old }
{
    if s.id != 0 {
        tables::put(ids, st.used, s.id as u32);
    }
}

// At most so many lines more, while the line at the place is one that the walk takes. Without marks
// every identity number is looked for. The length of the employer list is spoken of by the contract
// alone: whether the state is fit rests on it.
fn lines(
    begun: Run,
    bytes: &[u8],
    ids: &mut [u32],
    marks: &mut [u8],
    list: usize,
    most: usize,
    template: &Template,
) -> Run
    requires { Prepared list template.now.low template.now.high (reached_by begun ids.old) × Covers marks.old (take begun.state.used ids.old) }
    ensures { reached_by result ids.new ≡ onward bytes.now list most (reached_by begun ids.old) }
{
    let mut run = begun;
    for _ in 0..most {
        let Some(s) = plain::sight_at(bytes, run.at, &template.low, &template.high) else {
            return run;
        };
        if !takes(run.state, s, ids, marks) {
            return run;
        }
        keep(ids, run.state, s);
        marks::mark(marks, s.id);
        run = Run {
            state: with_one(run.state, said_in(s)),
            at: run.at + s.taken,
        };
    }
    run
}

// At most so many lines more; marks are made, and only identity numbers that are marked are looked
// for.
fn marked(
    begun: Run,
    bytes: &[u8],
    ids: &mut [u32],
    list: usize,
    most: usize,
    template: &Template,
) -> Run
    requires { Prepared list template.now.low template.now.high (reached_by begun ids.old) }
    ensures { reached_by result ids.new ≡ onward bytes.now list most (reached_by begun ids.old) }
{
    let mut marks = [0u8; 32768];
    marks::mark_first(&mut marks, ids, begun.state.used);
    lines(begun, bytes, ids, &mut marks, list, most, template)
}

// How many lines, of at most so many, are taken before marks are made: to make them takes about as
// long as 256 searches that begin with no number in use, or as a few among many numbers.
fn few_lines(used: usize, most: usize) -> usize
    ensures { (result ≤ 256) × (result ≤ most) }
{
    if most < 256 {
        return most;
    }
    if used < 256 {
        return 256;
    }
    8
}

// Whether a run that has read so many lines took all of the few.
fn took_all(before: u32, after: u32, few: usize) -> bool
    requires { few ≤ 256 }
    ensures { result ≡ eqb after (before + few) }
{
    (after as usize) == (before as usize) + few
}

// At most so many lines more. The first of them need no marks.
fn few_then_many(
    begun: Run,
    bytes: &[u8],
    ids: &mut [u32],
    list: usize,
    most: usize,
    template: &Template,
) -> Run
    requires { Prepared list template.now.low template.now.high (reached_by begun ids.old) }
    ensures { reached_by result ids.new ≡ onward bytes.now list most (reached_by begun ids.old) }
{
    let few = few_lines(begun.state.used, most);
    let run = lines(begun, bytes, ids, &mut [], list, few, template);
    if took_all(begun.state.lines, run.state.lines, few) {
        return marked(run, bytes, ids, list, most - few, template);
    }
    run
}

// The run from a place of the bytes on. Where the walk awaits no S record nothing is made ready.
fn run_from(opened: State, bytes: &[u8], from: usize, ids: &mut [u32], list: usize) -> Run
    ensures { reached_by result ids.new ≡ reaches bytes.now list (length bytes.now) from (walk_of opened) ids.old }
{
    let begun = Run {
        state: opened,
        at: from,
    };
    if awaits(opened, ids.len(), list) {
        let template = Template {
            low: plain::lowest(opened.open.fein, opened.filed),
            high: plain::highest(opened.open.fein, opened.filed),
        };
        return few_then_many(begun, bytes, ids, list, bytes.len(), &template);
    }
    begun
}

// The run after a line that was taken; the bytes from a place on begin with that line.
pub fn behind(a: Answer, bytes: &[u8], at: usize, ids: &mut [u32], list: usize) -> Answer
    ensures { left_by result ids.new ≡ behind (drop at bytes.now) list (left_by a ids.old) }
{
    let taken = step::taken_in(a.reply);
    if taken == 0 {
        return a;
    }
    if bytes.len() <= at {
        return a;
    }
    let run = run_from(a.state, &bytes[at..], taken, ids, list);
    Answer {
        reply: Ok(run.at),
        state: run.state,
    }
}
