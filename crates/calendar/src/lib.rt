// Quarters and calendar dates as numbers. No line is read here.
#![tactic(auto, unfolding(crate::specs::Dates::days_in, crate::specs::Dates::in_quarter, crate::specs::Dates::is_date, crate::specs::Dates::is_last_day, crate::specs::Dates::is_leap, crate::specs::Dates::month_days, crate::specs::Quarters::current_quarter, crate::specs::Quarters::is_after, crate::specs::Quarters::is_allowed, crate::specs::Quarters::is_filing_year, crate::specs::Quarters::is_quarter_month, crate::specs::Quarters::is_reportable, crate::specs::Quarters::is_same, crate::specs::Quarters::timing_of))]

ghost use Rattle.std.specs.Prelude.{◌≡◌};
ghost use Rattle.calendar.specs.Quarters.{is_quarter_month, is_filing_year, is_allowed, is_after, current_quarter, timing_of, is_reportable};
ghost use Rattle.calendar.specs.Dates.{is_leap, month_days, days_in, month_of, day_of, year_of, is_date, is_last_day, in_quarter};

const FIRST_YEAR: u64 = 2025;

const LAST_YEAR: u64 = 9999;

// A quarter: its year and its last month. The order of the fields is the calendar's.
#[derive(Clone, Copy, PartialEq, Eq, PartialOrd, Ord)]
pub struct Quarter {
    pub year: u64,
    pub month: u64,
}

// How a quarter stands to the last closed one: it is closed, it is the current one, or it is later
// than that.
#[derive(Clone, Copy, PartialEq, Eq)]
pub enum Timing {
    Closed,
    Current,
    Later,
}

// Whether a quarter ends with this month.
pub fn is_quarter_month(month: u64) -> bool
    ensures { result ≡ is_quarter_month month }
{
    matches!(month, 3 | 6 | 9 | 12)
}

// Whether quarters of this year are filed at all.
pub fn is_filing_year(year: u64) -> bool
    ensures { result ≡ is_filing_year year }
{
    FIRST_YEAR <= year
}

// Whether a quarter may be the last closed one.
pub fn is_allowed(q: Quarter) -> bool
    ensures { result ≡ is_allowed q }
{
    is_filing_year(q.year) && q.year <= LAST_YEAR && is_quarter_month(q.month)
}

// Whether a is a later quarter than b.
pub fn is_after(a: Quarter, b: Quarter) -> bool
    ensures { result ≡ is_after a b }
{
    b < a
}

// The current quarter, which is the one right after the last closed; that one itself where none is
// after it.
pub fn current_quarter(held: Quarter) -> Quarter
    ensures { result ≡ current_quarter held }
{
    if held.month < 12 {
        Quarter {
            month: held.month + 3,
            ..held
        }
    } else if held.year < LAST_YEAR {
        Quarter {
            year: held.year + 1,
            month: 3,
        }
    } else {
        held
    }
}

// The period test: how a quarter stands to the last closed one, which is `held`.
pub fn timing_of(held: Quarter, q: Quarter) -> Timing
    ensures { result ≡ timing_of held q }
{
    if !is_after(q, held) {
        Timing::Closed
    } else if q == current_quarter(held) {
        Timing::Current
    } else {
        Timing::Later
    }
}

// Whether a quarter may be reported while `held` is the last closed one.
pub fn is_reportable(held: Quarter, q: Quarter) -> bool
    ensures { result ≡ is_reportable held q }
{
    is_filing_year(q.year)
        && is_quarter_month(q.month)
        && match timing_of(held, q) {
            Timing::Closed => true,
            Timing::Current => true,
            Timing::Later => false,
        }
}

fn is_leap(year: u64) -> bool
    ensures { result ≡ is_leap year }
{
    if year % 100 == 0 {
        year % 400 == 0
    } else {
        year % 4 == 0
    }
}

// A month's days in a common year, 0 for a number that is no month. By rule: 31 and 30 take turns
// from January on, and anew from August on; February has 28.
fn month_days(month: u64) -> u64
    ensures { result ≡ month_days month }
{
    match month {
        2 => 28,
        1..=12 => 30 + (month + month / 8) % 2,
        _ => 0,
    }
}

fn days_in(month: u64, year: u64) -> u64
    ensures { result ≡ days_in month year }
{
    if month == 2 && is_leap(year) {
        29
    } else {
        month_days(month)
    }
}

fn month_of(date: u64) -> u64
    ensures { result ≡ month_of date }
{
    date / 1000000
}

fn day_of(date: u64) -> u64
    ensures { result ≡ day_of date }
{
    date / 10000 % 100
}

fn year_of(date: u64) -> u64
    ensures { result ≡ year_of date }
{
    date % 10000
}

// Whether MMDDYYYY, read as one number, is a calendar date. A number of more than eight digits has
// no month.
pub fn is_date(date: u64) -> bool
    ensures { result ≡ is_date date }
{
    let day = day_of(date);
    1 <= day && day <= days_in(month_of(date), year_of(date))
}

// Whether a date MMDDYYYY is the last day of a quarter.
pub fn is_last_day(date: u64, q: Quarter) -> bool
    ensures { result ≡ is_last_day date q }
{
    year_of(date) == q.year && month_of(date) == q.month && day_of(date) == days_in(q.month, q.year)
}

// Whether a date MMDDYYYY is of the quarter's year, and its month one of the quarter's three.
pub fn in_quarter(date: u64, q: Quarter) -> bool
    ensures { result ≡ in_quarter date q }
{
    let month = month_of(date);
    year_of(date) == q.year && month <= q.month && q.month <= month + 2
}
