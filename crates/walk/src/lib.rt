// The walk over a wage file: opening, one line, the end; and a whole file in one slice.
#![tactic(auto)]

ghost use Rattle.std.specs.Prelude.{◌+◌, ◌≤◌, ◌≡◌, length, drop};
ghost use Rattle.lines.specs.Lines.{first_line};
ghost use Rattle.tables.specs.Room.{tables as tables_of};
ghost use Rattle.state.specs.Walks.{walk_of};
ghost use Rattle.step.specs.Moves.{taken_in, moved_by, line_seen};
ghost use Rattle.step.specs.Questions.{fein_asked_by, id_asked_by, fein_found, id_found};
ghost use Rattle.step.specs.Steps.{ids_after, list_after, out_of, open_step, line_step, end_step};
ghost use Rattle.walk.specs.Calls.{whole_file};
ghost use Rattle.walk.specs.LineAndRun.{lines_step, next_place};

use edits::Opening;
use state::State;
use step::{Answer, Change, Move, Reply, line};
use tables::{Employer, list};

fn change_ids(ids: &mut [u32], change: Change)
    ensures { ids.new ≡ ids_after change ids.old }
{
    match change {
        Change::Clear => {
            let end = ids.len();
            tables::zero_first(ids, end, 0);
        }
        Change::Adds(at, id) => tables::put(ids, at, id),
        Change::Closes(used, _, _, _) => tables::zero_first(ids, used, 0),
        Change::Nothing | Change::Opens(_, _) => {}
    }
}

fn change_list(list: &mut [Employer], change: Change)
    ensures { list.new ≡ list_after change list.old }
{
    match change {
        Change::Clear => {
            let end = list.len();
            tables::zero_first(list, end, list::AT_REST);
        }
        Change::Opens(at, entry) => tables::put(list, at, entry),
        Change::Closes(_, at, count, cents) => {
            let old = list::entry_at(list, at);
            tables::put(list, at, list::closed_entry(old, count, cents));
        }
        Change::Nothing | Change::Adds(_, _) => {}
    }
}

// Opens a walk. A quarter that the paper does not allow is 70, a format that is none 73, and
// nothing is touched.
pub fn open(held: Opening, ids: &mut [u32], list: &mut [Employer]) -> Answer
    ensures { out_of result (tables_of ids.new list.new) ≡ open_step held (tables_of ids.old list.old) }
{
    let m = step::open_move(held);
    change_ids(ids, m.change);
    change_list(list, m.change);
    m.answer
}

// What the line at a place of the bytes asks of the employer list: whether this FEIN is among those
// of its entries in use, or nothing. A place past the end is the end.
fn asked_at(st: State, bytes: &[u8], at: usize) -> Option<u64>
    ensures { result ≡ fein_asked_by st.held.format (drop at bytes.now) }
{
    if at < bytes.len() {
        return record::fein_asked(st.held.format, &bytes[at..]);
    }
    record::fein_asked(st.held.format, &[])
}

// Whether the FEIN that the line at a place of the bytes asks for is in the list.
fn is_repeated(st: State, bytes: &[u8], at: usize, list: &[Employer]) -> bool
    ensures { result ≡ fein_found (fein_asked_by st.held.format (drop at bytes.now)) st.all.employers list.entry.now }
{
    match asked_at(st, bytes, at) {
        Some(fein) => list::has_fein(list, st.all.employers as usize, fein),
        None => false,
    }
}

// What the line at a place of the bytes answers and changes. A place past the end is the end.
fn move_at(st: State, bytes: &[u8], at: usize, ids: &[u32], list: usize, repeated: bool) -> Move
    ensures { moved_by result ≡ line_seen (record { ids = length ids.entry.now; list = list }) (record { fein = repeated; id = id_found (id_asked_by st.held.format (drop at bytes.now)) st.used ids.entry.now }) (walk_of st) (first_line (drop at bytes.now)) }
{
    if at < bytes.len() {
        return line::line_move(st, &bytes[at..], ids, list, repeated);
    }
    line::line_move(st, &[], ids, list, repeated)
}

// One line: the first of the bytes from a place on.
pub fn line_at(st: State, bytes: &[u8], at: usize, ids: &mut [u32], list: &mut [Employer]) -> Answer
    ensures { out_of result (tables_of ids.new list.new) ≡ line_step (walk_of st) (first_line (drop at bytes.now)) (tables_of ids.old list.old) }
{
    let repeated = is_repeated(st, bytes, at, list);
    let m = move_at(st, bytes, at, ids, list.len(), repeated);
    change_ids(ids, m.change);
    change_list(list, m.change);
    m.answer
}

// One line: the first of the bytes lent.
pub fn line(st: State, bytes: &[u8], ids: &mut [u32], list: &mut [Employer]) -> Answer
    ensures { out_of result (tables_of ids.new list.new) ≡ line_step (walk_of st) (first_line bytes.now) (tables_of ids.old list.old) }
{
    line_at(st, bytes, 0, ids, list)
}

// One line, and the plain S records right after it, which one sweep each finds good: what a call
// for each of them would leave. The bytes taken are those of all of them.
pub fn lines_at(
    st: State,
    bytes: &[u8],
    at: usize,
    ids: &mut [u32],
    list: &mut [Employer],
) -> Answer
    ensures { out_of result (tables_of ids.new list.new) ≡ lines_step (walk_of st) (drop at bytes.now) (tables_of ids.old list.old) }
{
    let a = line_at(st, bytes, at, ids, list);
    employees::behind(a, bytes, at, ids, list.len())
}

// The end of the input.
pub fn end(st: State, ids: &mut [u32], list: &mut [Employer]) -> Answer
    ensures { out_of result (tables_of ids.new list.new) ≡ end_step (walk_of st) (tables_of ids.old list.old) }
{
    let m = step::end_move(st, ids.len(), list.len());
    change_ids(ids, m.change);
    change_list(list, m.change);
    m.answer
}

// Where the next line begins: after the bytes taken, or at the end after a refusal, since no other
// line is then taken.
fn next_place(at: usize, reply: Reply, end: usize) -> usize
    requires { at + taken_in reply ≤ end }
    ensures { result ≡ next_place at (taken_in reply) end }
{
    let taken = step::taken_in(reply);
    if taken == 0 {
        return end;
    }
    at + taken
}

// A whole file in one slice: opening, a call for each line, and the end call, also after a refusal.
// How far a turn goes its line tells.
pub fn whole(held: Opening, bytes: &[u8], ids: &mut [u32], list: &mut [Employer]) -> Answer
    ensures { out_of result (tables_of ids.new list.new) ≡ whole_file held bytes.now (tables_of ids.old list.old) }
{
    let opened = open(held, ids, list);
    let mut st = opened.state;
    let mut at = 0;
    while at < bytes.len() {
        let a = lines_at(st, bytes, at, ids, list);
        st = a.state;
        at = next_place(at, a.reply, bytes.len());
    }
    end(st, ids, list)
}
