// The acknowledgement of a wage file that is read piece by piece: its header, and one turn on the
// bytes held.
#![tactic(auto, unfolding(crate::specs::Turns::header_quarter, crate::specs::Turns::turn))]

ghost use Rattle.std.specs.Prelude.{◌+◌, ◌≤◌, min, ◌||◌, ◌≡◌, leb, length, drop};
ghost use Rattle.tables.specs.Room.{tables as tables_of};
ghost use Rattle.state.specs.Walks.{walk_of};
ghost use Rattle.step.specs.Moves.{taken_in};
ghost use Rattle.ack.specs.Turns.{longest_line, header_quarter, header_opening, lines_turn, turn as turn_of};
ghost use Rattle.ack.specs.Answers.{progress_of, turned_by};
ghost use Rattle.ack.specs.Places.{takes_line, place_behind};
ghost use Rattle.ack.specs.declared.Progress.TheVariants.{Walking, Finished};
ghost use Rattle.ack.specs.Keep.{kept};

use calendar::Quarter;
use edits::Opening;
use edits::format::Format;
use state::State;
use step::Reply;
use tables::Employer;

// Where a program stands between two reads: before the header; within the file; or finished.
#[derive(Clone, Copy)]
pub enum Progress {
    Waiting,
    Walking(State),
    Finished(State),
}

// What a turn leaves: where the program stands, and how many of the bytes held it took. What it did
// not take is to stand before the next read.
#[derive(Clone, Copy)]
pub struct Turned {
    pub taken: usize,
    pub progress: Progress,
}

// The bytes of a header.
const HEADER: usize = 7;

// The last closed quarter that the input begins with: six digits YYYYMM and LF. What is no such
// header is no quarter, which the opening refuses with 70.
fn header_quarter(bytes: &[u8]) -> Quarter
    ensures { result ≡ header_quarter bytes.now }
{
    let Ok(digits) = number::read_number(bytes, 1, 6) else {
        return state::no_quarter();
    };
    if bytes.len() < HEADER || bytes[HEADER - 1] != b'\n' {
        return state::no_quarter();
    }
    Quarter {
        year: digits / 100,
        month: digits % 100,
    }
}

// What the header opens a walk of this format with.
pub fn header(format: Format, bytes: &[u8]) -> Opening
    ensures { result ≡ header_opening format bytes.now }
{
    let q = header_quarter(bytes);
    Opening {
        format,
        year: q.year,
        month: q.month,
    }
}

// So many bytes show a line whole, whatever its format: the longest record of any format has 512
// characters, and the longest line end 2.
const LONGEST_LINE: usize = 514;

// Whether a line may be taken: the longest would be held whole, or no more will come.
fn is_whole(ended: bool, held: usize) -> bool
    ensures { result ≡ (ended || leb longest_line held) }
{
    ended || LONGEST_LINE <= held
}

fn has_header(ended: bool, held: usize) -> bool
    ensures { result ≡ (ended || leb 7 held) }
{
    ended || HEADER <= held
}

// A place in the bytes held. `last`: after the lines from there on comes the end call, since no
// more bytes will come, or a line was refused.
#[derive(Clone, Copy)]
struct Place {
    at: usize,
    last: bool,
}

fn takes_line(here: Place, held: usize) -> bool
    ensures { result ≡ takes_line here held }
{
    here.at < held && is_whole(here.last, held - here.at)
}

// Behind the bytes that a line took. After a refusal no other line is taken, so that is the end.
fn place_behind(here: Place, reply: Reply, held: usize) -> Place
    requires { here.at + taken_in reply ≤ held }
    ensures { result ≡ place_behind here (taken_in reply) held }
{
    let taken = step::taken_in(reply);
    if taken == 0 {
        return Place {
            at: held,
            last: true,
        };
    }
    Place {
        at: here.at + taken,
        ..here
    }
}

fn finished(st: State, held: usize) -> Turned
    ensures { result ≡ record { progress = Finished st; taken = held } }
{
    Turned {
        taken: held,
        progress: Progress::Finished(st),
    }
}

// A place past the end is the end.
fn walking(st: State, at: usize, held: usize) -> Turned
    ensures { result ≡ record { progress = Walking st; taken = min at held } }
{
    Turned {
        taken: at.min(held),
        progress: Progress::Walking(st),
    }
}

// Takes lines from a place on while the longest line would be held whole, or the input has ended;
// then, or after a refusal, makes the end call. A place past the end is the end.
fn lines_turn(
    opened: State,
    bytes: &[u8],
    from: usize,
    ended: bool,
    ids: &mut [u32],
    list: &mut [Employer],
) -> Turned
    ensures { (turned_by result bytes.now (tables_of ids.new list.new) ≡ lines_turn ended 0 (drop from bytes.now) (walk_of opened) (tables_of ids.old list.old)) × (result.taken ≤ length bytes.now) }
{
    let mut st = opened;
    let mut here = Place {
        at: from,
        last: ended,
    };
    while takes_line(here, bytes.len()) {
        let a = walk::lines_at(st, bytes, here.at, ids, list);
        st = a.state;
        here = place_behind(here, a.reply, bytes.len());
    }
    if here.last {
        let a = walk::end(st, ids, list);
        return finished(a.state, bytes.len());
    }
    walking(st, here.at, bytes.len())
}

// One turn on the bytes held, of an input in this format; `ended`: no more will come. The header is
// read as soon as its bytes are held, or no more will come.
pub fn turn(
    format: Format,
    progress: Progress,
    bytes: &[u8],
    ended: bool,
    ids: &mut [u32],
    list: &mut [Employer],
) -> Turned
    ensures { (turned_by result bytes.now (tables_of ids.new list.new) ≡ turn_of format (progress_of progress) ended bytes.now (tables_of ids.old list.old)) × (result.taken ≤ length bytes.now) }
{
    match progress {
        Progress::Waiting => {
            if !has_header(ended, bytes.len()) {
                return Turned { taken: 0, progress };
            }
            let opened = walk::open(header(format, bytes), ids, list);
            lines_turn(opened.state, bytes, HEADER, ended, ids, list)
        }
        Progress::Walking(st) => lines_turn(st, bytes, 0, ended, ids, list),
        Progress::Finished(st) => finished(st, bytes.len()),
    }
}

// Moves the bytes from `at` up to `end` to the front of the buffer, as far as there are any, and
// tells how many they are: what a turn did not take, before the next read.
pub fn keep(buf: &mut [u8], at: usize, end: usize) -> usize
    ensures { record { count = result; bytes = buf.new } ≡ kept at end buf.old }
{
    let stop = end.min(buf.len());
    if stop <= at {
        return 0;
    }
    buf.copy_within(at..stop, 0);
    stop - at
}
