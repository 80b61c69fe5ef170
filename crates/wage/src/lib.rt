// The library for integrators: the calls of the walk, the writing of T and F, the building of A, E
// and S of PFML and the reading of their fields, and the frames, over numbers and slices. C sees a
// slice as its pointer and its length. The caller keeps the state of a walk as words.
#![tactic(auto)]

ghost use Rattle.std.specs.Prelude.{Err, ◌≡◌, MatchResult};
ghost use Rattle.reason.specs.ReasonNumbers.{notice, notice_of, number_of};
ghost use Rattle.tables.specs.Room.{Tables, tables as tables_of};
ghost use Rattle.step.specs.Moves.{notice_in, taken_in};
ghost use Rattle.step.specs.Steps.{out_of};
ghost use Rattle.write.specs.Writing.{notice_in as notice_on};
ghost use Rattle.frames.specs.Frames.{framed_numbers};
ghost use Rattle.wage.specs.Exports.{numbers, Told, Opened, is_still, Continued, abi_version, opening_of, open_through, line_through, end_through, whole_through, written_numbers, filled_t, filled_f, filled_wham_t, filled_wham_f, filled_built, field_first, field_reading, field_length, read_field, framing_numbers, filled_frames};

use build::read;
use edits::Opening;
use edits::format::Format;
use frames::Unframed;
use reason::{Broken, Refusal};
use step::{Answer, Reply};
use tables::Employer;
use write::Wrote;

// What a call answers: the paper's number, line and column, and a count of bytes, or the number
// that a field holds.
#[derive(Clone, Copy, Default)]
struct Numbers {
    number: u64,
    line: u64,
    column: u64,
    bytes: u64,
}

impl Numbers {
    // The four numbers go into the answer's words, as many of them as fit, and the first is the
    // call's own answer. A loop, since `copy_from_slice` would have callers in C bring memmove.
    fn tell(self, answer: &mut [u64]) -> u64
        ensures { Told self result answer.old answer.new }
    {
        let words = [self.number, self.line, self.column, self.bytes];
        for i in 0..words.len().min(answer.len()) {
            answer[i] = words[i];
        }
        self.number
    }
}

// ---- what is told of an outcome
// A refusal: the number of its reason, and its place in the file.
impl From<Refusal> for Numbers {
    ghost from_gives = { λ refusal told. told ≡ numbers (notice_of refusal) 0 };

    fn from(refusal: Refusal) -> Numbers {
        Numbers {
            number: u64::from(u8::from(refusal.reason)),
            line: u64::from(refusal.line),
            column: u64::from(refusal.column),
            bytes: 0,
        }
    }
}

// What is broken in a field: a refusal of a column, and of no line.
impl From<Broken> for Numbers {
    ghost from_gives = { λ broken told. told ≡ numbers (notice (number_of broken.1) 0 broken.0) 0 };

    fn from(broken: Broken) -> Numbers {
        let Broken(column, reason) = broken;
        Numbers::from(Refusal {
            line: 0,
            column,
            reason,
        })
    }
}

// Why no frames are written: a refusal that has no place in the file.
impl From<Unframed> for Numbers {
    ghost from_gives = { λ why told. told ≡ framing_numbers (framed_numbers (Err why)) };

    fn from(why: Unframed) -> Numbers {
        Numbers {
            number: why as u64,
            ..Numbers::default()
        }
    }
}

// A count of bytes, or the number that a field holds; or why there is none.
fn numbers_of<E: Into<Numbers>>(outcome: Result<u64, E>) -> Numbers
    ensures { MatchResult outcome (λ bytes. result ≡ numbers (notice 0 0 0) bytes) (λ why. E.converts why result) }
{
    match outcome {
        Ok(bytes) => Numbers {
            bytes,
            ..Numbers::default()
        },
        Err(why) => why.into(),
    }
}

// A call of the walk: the bytes taken, or the refusal.
fn reply_numbers(reply: Reply) -> Numbers
    ensures { result ≡ numbers (notice_in reply) (taken_in reply) }
{
    numbers_of(reply.map(|taken| taken as u64))
}

// There is no place to keep the state.
fn tell_no_place(answer: &mut [u64]) -> u64
    ensures { Told (numbers (notice 72 0 0) 0) result answer.old answer.new }
{
    let numbers = Numbers {
        number: 72,
        ..Numbers::default()
    };
    numbers.tell(answer)
}

// ---- the calls of the walk
// After a call that opens a walk its state and its answer go into the words that the caller lent
// for them.
fn tell_opened(a: Answer, state: &mut [u64], answer: &mut [u64]) -> u64
    ensures { (t : Tables) → Opened (out_of a t) state.old answer.old (record { number = result; state = state.new; answer = answer.new; left = t }) }
{
    state_words::put_words(a.state, state);
    reply_numbers(a.reply).tell(answer)
}

// A line or end call that answers 70 to 73 changes nothing.
fn is_still(number: u64) -> bool
    ensures { result ≡ is_still number }
{
    matches!(number, 70..=73)
}

// After a line or end call, likewise. But where nothing is changed no word of the state is written:
// to read words and put them back can change what no walk needs in them.
fn tell(a: Answer, state: &mut [u64], answer: &mut [u64]) -> u64
    ensures { (t : Tables) → Continued (out_of a t) state.old answer.old (record { number = result; state = state.new; answer = answer.new; left = t }) }
{
    let number = reply_numbers(a.reply).tell(answer);
    if !is_still(number) {
        state_words::put_words(a.state, state);
    }
    number
}

// The version of what callers rely on: the words of the state and the entries of the employer list.
#[unsafe(no_mangle)]
pub extern "C" fn wage_abi_version() -> u64
    ensures { result ≡ abi_version }
{
    2
}

fn opening(format: u64, year: u64, month: u64) -> Opening
    ensures { result ≡ opening_of format year month }
{
    Opening {
        format: Format::from(format),
        year,
        month,
    }
}

// Opens a walk.
#[unsafe(no_mangle)]
pub extern "C" fn wage_open(
    format: u64,
    year: u64,
    month: u64,
    state: &mut [u64],
    answer: &mut [u64],
    ids: &mut [u32],
    list: &mut [Employer],
) -> u64
    ensures { Opened (open_through (opening_of format year month) state.old (tables_of ids.old list.old)) state.old answer.old (record { number = result; state = state.new; answer = answer.new; left = tables_of ids.new list.new }) }
{
    if state.len() < state_words::WORDS {
        return tell_no_place(answer);
    }
    let a = walk::open(opening(format, year, month), ids, list);
    tell_opened(a, state, answer)
}

// One line: the first of the bytes lent.
#[unsafe(no_mangle)]
pub extern "C" fn wage_line(
    state: &mut [u64],
    bytes: &[u8],
    answer: &mut [u64],
    ids: &mut [u32],
    list: &mut [Employer],
) -> u64
    ensures { Continued (line_through bytes.now state.old (tables_of ids.old list.old)) state.old answer.old (record { number = result; state = state.new; answer = answer.new; left = tables_of ids.new list.new }) }
{
    let st = state_words::state_in(state);
    let a = walk::line(st, bytes, ids, list);
    tell(a, state, answer)
}

// The end of the input.
#[unsafe(no_mangle)]
pub extern "C" fn wage_end(
    state: &mut [u64],
    answer: &mut [u64],
    ids: &mut [u32],
    list: &mut [Employer],
) -> u64
    ensures { Continued (end_through state.old (tables_of ids.old list.old)) state.old answer.old (record { number = result; state = state.new; answer = answer.new; left = tables_of ids.new list.new }) }
{
    let st = state_words::state_in(state);
    let a = walk::end(st, ids, list);
    tell(a, state, answer)
}

// A whole file in one slice.
#[unsafe(no_mangle)]
pub extern "C" fn wage_whole(
    format: u64,
    year: u64,
    month: u64,
    bytes: &[u8],
    state: &mut [u64],
    answer: &mut [u64],
    ids: &mut [u32],
    list: &mut [Employer],
) -> u64
    ensures { Opened (whole_through (opening_of format year month) bytes.now state.old (tables_of ids.old list.old)) state.old answer.old (record { number = result; state = state.new; answer = answer.new; left = tables_of ids.new list.new }) }
{
    if state.len() < state_words::WORDS {
        return tell_no_place(answer);
    }
    let a = walk::whole(opening(format, year, month), bytes, ids, list);
    tell_opened(a, state, answer)
}

// ---- the calls that write into a lent slice
// A record of so many bytes was written; or it was not.
fn tell_wrote(size: u16, wrote: Wrote, answer: &mut [u64]) -> u64
    ensures { Told (written_numbers size (notice_on wrote)) result answer.old answer.new }
{
    numbers_of(wrote.map(|()| u64::from(size))).tell(answer)
}

// The T record that the walk accepts next.
#[unsafe(no_mangle)]
pub extern "C" fn wage_write_t(state: &[u64], out: &mut [u8], answer: &mut [u64]) -> u64
    ensures { record { number = result; out = out.new; answer = answer.new } ≡ filled_t state.now out.old answer.old }
{
    let st = state_words::state_in(state);
    let wrote = write::write_t(st, out);
    tell_wrote(pfml_fields::RECORD, wrote, answer)
}

// The F record that the walk accepts next.
#[unsafe(no_mangle)]
pub extern "C" fn wage_write_f(state: &[u64], out: &mut [u8], answer: &mut [u64]) -> u64
    ensures { record { number = result; out = out.new; answer = answer.new } ≡ filled_f state.now out.old answer.old }
{
    let st = state_words::state_in(state);
    let wrote = write::write_f(st, out);
    tell_wrote(pfml_fields::RECORD, wrote, answer)
}

// The T record of an amended withholding file that the walk accepts next, with the payments in
// cents; the total of all employees is read in edition 2020 alone.
#[unsafe(no_mangle)]
pub extern "C" fn wage_wham_write_t(
    state: &[u64],
    payments: u64,
    total: u64,
    out: &mut [u8],
    answer: &mut [u64],
) -> u64
    ensures { record { number = result; out = out.new; answer = answer.new } ≡ filled_wham_t payments total state.now out.old answer.old }
{
    let st = state_words::state_in(state);
    let wrote = wham_write::write_t(st, payments, total, out);
    tell_wrote(wham_fields::RECORD, wrote, answer)
}

// The F record of such a file.
#[unsafe(no_mangle)]
pub extern "C" fn wage_wham_write_f(state: &[u64], out: &mut [u8], answer: &mut [u64]) -> u64
    ensures { record { number = result; out = out.new; answer = answer.new } ≡ filled_wham_f state.now out.old answer.old }
{
    let st = state_words::state_in(state);
    let wrote = wham_write::write_f(st, out);
    tell_wrote(wham_fields::RECORD, wrote, answer)
}

// ---- the calls that build a record
// A, the transmitter, from its values.
#[unsafe(no_mangle)]
pub extern "C" fn wage_build_a(
    values: &[u64],
    texts: &[u8],
    out: &mut [u8],
    answer: &mut [u64],
) -> u64
    ensures { record { number = result; out = out.new; answer = answer.new } ≡ filled_built 65 values.now texts.now out.old answer.old }
{
    let wrote = build::build_a(values, texts, out);
    tell_wrote(pfml_fields::RECORD, wrote, answer)
}

// E, an employer.
#[unsafe(no_mangle)]
pub extern "C" fn wage_build_e(
    values: &[u64],
    texts: &[u8],
    out: &mut [u8],
    answer: &mut [u64],
) -> u64
    ensures { record { number = result; out = out.new; answer = answer.new } ≡ filled_built 69 values.now texts.now out.old answer.old }
{
    let wrote = build::build_e(values, texts, out);
    tell_wrote(pfml_fields::RECORD, wrote, answer)
}

// S, an employee.
#[unsafe(no_mangle)]
pub extern "C" fn wage_build_s(
    values: &[u64],
    texts: &[u8],
    out: &mut [u8],
    answer: &mut [u64],
) -> u64
    ensures { record { number = result; out = out.new; answer = answer.new } ≡ filled_built 83 values.now texts.now out.old answer.old }
{
    let wrote = build::build_s(values, texts, out);
    tell_wrote(pfml_fields::RECORD, wrote, answer)
}

// ---- the calls that read a field
// Field k, counted from 0, of the record that a letter names, as a number.
#[unsafe(no_mangle)]
pub extern "C" fn wage_field_number(
    letter: u8,
    field: usize,
    line: &[u8],
    answer: &mut [u64],
) -> u64
    ensures { record { number = result; answer = answer.new } ≡ read_field (field_reading letter field line.now) answer.old }
{
    numbers_of(read::field_number(letter, field, line)).tell(answer)
}

// How many characters it has as a text.
#[unsafe(no_mangle)]
pub extern "C" fn wage_field_text(letter: u8, field: usize, line: &[u8]) -> u64
    ensures { result ≡ field_length letter field line.now }
{
    read::field_text(letter, field, line) as u64
}

// Its first column.
#[unsafe(no_mangle)]
pub extern "C" fn wage_field_first(letter: u8, field: usize) -> u64
    ensures { result ≡ field_first letter field }
{
    u64::from(read::field_first(letter, field))
}

// ---- the call that writes frames
// The acknowledgement of a walk that has ended, at the front of the buffer.
#[unsafe(no_mangle)]
pub extern "C" fn wage_frames(
    state: &[u64],
    list: &[Employer],
    out: &mut [u8],
    answer: &mut [u64],
) -> u64
    ensures { record { number = result; out = out.new; answer = answer.new } ≡ filled_frames state.now list.now out.old answer.old }
{
    let st = state_words::state_in(state);
    let framed = frames::frames(st, list, out);
    numbers_of(framed.map(|bytes| bytes as u64)).tell(answer)
}
