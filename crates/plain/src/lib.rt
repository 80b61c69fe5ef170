// The fast path, for one line: an S record of PFML that one sweep over its columns finds good,
// without an exit on the way. What it does not find good is only looked at more closely.
#![tactic(auto, unfolding(crate::specs::Plain::highest_of_all, crate::specs::Plain::lowest_of_all, crate::specs::Plain::of_employer, laws::specs::Spelling::bytes))]

ghost use Rattle.std.specs.Prelude.{◌≡◌, ◌-◌, ◌≤◌, length, drop};
ghost use Rattle.plain.specs.Plain.{of_digit, of_employer, lowest, highest, fits, within, digits_from, seen};

use calendar::Quarter;
use chars::columns;
use chars::columns::Allowed;
use edits::rows;
use pfml_fields::{
    CODE_OF_S, FEIN_OF_S, FIRST_NAME_OF_S, IDENTITY_OF_S, LAST_NAME_OF_S, LETTER_OF_S, PERIOD_OF_S,
    WAGES_OF_S, YEAR_OF_S,
};

// What is seen of a plain S record: the bytes that it and its end take, its identity number and its
// wages.
#[derive(Clone, Copy)]
pub struct Sighted {
    pub taken: usize,
    pub id: u64,
    pub wages: u64,
}

// How many characters an S record has.
pub const RECORD: usize = pfml_fields::RECORD as usize;

const LETTER: [u8; 1] = *b"S";

// The places of the identity number and of the wages, and the columns of both names.
const ID_FROM: usize = IDENTITY_OF_S.first as usize - 1;

const ID_TO: usize = IDENTITY_OF_S.last as usize;

const WAGES_FROM: usize = WAGES_OF_S.first as usize - 1;

const WAGES_TO: usize = WAGES_OF_S.last as usize;

const NAMES_FIRST: u16 = LAST_NAME_OF_S.first;

const NAMES_LAST: u16 = FIRST_NAME_OF_S.last;

// The lowest character that is no blank.
const LOWEST_INK: [u8; 1] = *b"!";

// The largest number of nine digits.
const LAST_FEIN: u64 = 999999999;

// The bytes that a record and the longest line end take.
const WHOLE_LINE: usize = RECORD + 2;

// An S record of any employer, with one character in every column of its numbers.
fn of_digit(digit: u8) -> [u8; RECORD]
    ensures { result ≡ of_digit digit }
{
    let mut line = [b' '; RECORD];
    rows::write_text_at(&mut line, LETTER_OF_S, &LETTER);
    rows::write_text_at(&mut line, CODE_OF_S, &pfml::ENTITY);
    rows::fill_at(&mut line, IDENTITY_OF_S, digit);
    rows::fill_at(&mut line, PERIOD_OF_S, digit);
    rows::fill_at(&mut line, YEAR_OF_S, digit);
    rows::fill_at(&mut line, WAGES_OF_S, digit);
    rows::fill_at(&mut line, FEIN_OF_S, digit);
    line
}

// The numbers of the employer and of A's quarter, in a record's columns.
fn put_employer(line: &mut [u8], fein: u64, filed: Quarter)
    ensures { line.new ≡ of_employer line.old fein filed }
{
    rows::write_at(line, PERIOD_OF_S, filed.month);
    rows::write_at(line, YEAR_OF_S, filed.year);
    rows::write_at(line, FEIN_OF_S, fein);
}

// The lowest character that each column of the employer's S records may hold.
pub fn lowest(fein: u64, filed: Quarter) -> [u8; RECORD]
    ensures { result ≡ lowest fein filed }
{
    let mut line = of_digit(b'0');
    rows::write_text_at(&mut line, LAST_NAME_OF_S, &LOWEST_INK);
    rows::write_text_at(&mut line, FIRST_NAME_OF_S, &LOWEST_INK);
    put_employer(&mut line, fein, filed);
    line
}

// The highest.
pub fn highest(fein: u64, filed: Quarter) -> [u8; RECORD]
    ensures { result ≡ highest fein filed }
{
    let mut line = of_digit(b'9');
    rows::fill_at(&mut line, LAST_NAME_OF_S, b'z');
    rows::fill_at(&mut line, FIRST_NAME_OF_S, b'z');
    put_employer(&mut line, fein, filed);
    line
}

// Whether the columns have room for the numbers, and S records may name the quarter.
pub fn fits(fein: u64, filed: Quarter) -> bool
    ensures { result ≡ fits fein filed }
{
    fein <= LAST_FEIN && calendar::is_allowed(filed)
}

// Whether each column lies between those of the two records. Every one of them is looked at, so
// that a compiler can compare several at once; the last two stand apart, so that it has none left
// over.
fn within(line: &[u8], low: &[u8], high: &[u8]) -> bool
    requires { (290 ≤ length line.now) × (290 ≤ length low.now) × (290 ≤ length high.now) }
    ensures { result ≡ within low.now high.now line.now 290 }
{
    let mut good = true;
    for i in 0..288 {
        let c = line[i];
        good &= (low[i] <= c) & (c <= high[i]);
    }
    let c = line[288];
    let last = line[289];
    good &= (low[288] <= c) & (c <= high[288]);
    good & ((low[289] <= last) & (last <= high[289]))
}

// The places from..to read as digits, without asking whether they are.
fn digits_in(line: &[u8], from: usize, to: usize) -> u64
    requires { (from ≤ to) × (to ≤ length line.now) × (to - from ≤ 18) }
    ensures { result ≡ digits_from line.now 0 from (to - from) }
{
    let mut v: u64 = 0;
    for i in from..to {
        v = v * 10 + u64::from(line[i] % 16);
    }
    v
}

// The S record in front of bytes that hold a whole line.
fn sight_here(line: &[u8], low: &[u8], high: &[u8]) -> Option<Sighted>
    requires { (292 ≤ length line.now) × (290 ≤ length low.now) × (290 ≤ length high.now) }
    ensures { result ≡ seen low.now high.now line.now }
{
    if !within(line, low, high) {
        return None;
    }
    if !columns::all_hold(Allowed::OfNames, line, NAMES_FIRST, NAMES_LAST) {
        return None;
    }
    let end = lines::end_length(line, RECORD);
    if end == 0 {
        return None;
    }
    let id = digits_in(line, ID_FROM, ID_TO);
    if !rules::may_be_filed(id) {
        return None;
    }
    let wages = digits_in(line, WAGES_FROM, WAGES_TO);
    Some(Sighted {
        taken: RECORD + end,
        id,
        wages,
    })
}

// The S record at a place of the bytes, seen in one sweep; none: look closer. By two records of
// which one is too short nothing is seen.
#[tactic(auto, using(crate::specs::SightOutcomes::low_short, crate::specs::SightOutcomes::high_short))]
pub fn sight_at(bytes: &[u8], at: usize, low: &[u8], high: &[u8]) -> Option<Sighted>
    ensures { result ≡ seen low.now high.now (drop at bytes.now) }
{
    if low.len() < RECORD {
        return None;
    }
    if high.len() < RECORD {
        return None;
    }
    if bytes.len() < at {
        return None;
    }
    if bytes.len() - at < WHOLE_LINE {
        return None;
    }
    sight_here(&bytes[at..], low, high)
}
