// The edits of the fields of one record, given what they depend on besides the record's own bytes.
#![tactic(auto)]

pub mod fields;
pub mod format;
pub mod further;
pub mod own;
pub mod rows;
pub mod with_context;

use calendar::Quarter;
use format::Format;

// Where a line stands: before A; after A, before any E; under an E; after a T; after F.
#[derive(Clone, Copy, PartialEq, Eq)]
pub enum Phase {
    BeforeA,
    AfterA,
    EOpen,
    AfterT,
    AfterF,
}

// What a walk is opened with: the format of the file, and the last closed quarter.
#[derive(Clone, Copy, PartialEq, Eq)]
pub struct Opening {
    pub format: Format,
    pub year: u64,
    pub month: u64,
}

// The open E: its FEIN, whether it says that S records follow, and the S records under it with the
// sum of their wages in cents. The other numbers are those of formats to come, and zero in PFML: a
// second sum; the records under it that are no S, and the nearest of these; whether a note was
// among them; and the account number as two numbers to the base 256.
#[derive(Clone, Copy, PartialEq, Eq, Default)]
pub struct Open {
    pub fein: u64,
    pub follow: bool,
    pub count: u64,
    pub sum: u64,
    pub second: u64,
    pub others: u64,
    pub nearest: u64,
    pub noted: bool,
    pub account_head: u64,
    pub account_tail: u64,
}

// The whole file so far: its S records, its E records, and the sum of all wages in cents. The other
// numbers are those of formats to come, and zero in PFML: the second sum, the records that are no
// S, and the notes.
#[derive(Clone, Copy, PartialEq, Eq, Default)]
pub struct Totals {
    pub count: u64,
    pub employers: u64,
    pub sum: u64,
    pub second: u64,
    pub others: u64,
    pub notes: u64,
}

// All that a line's edits depend on besides its own bytes, but for what was seen.
#[derive(Clone, Copy)]
pub struct Context {
    pub phase: Phase,
    // What the walk was opened with, and A's quarter.
    pub held: Opening,
    pub filed: Quarter,
    pub open: Open,
    pub all: Totals,
    // No room is left for an id, or for an employer.
    pub ids_full: bool,
    pub list_full: bool,
}

// Whether the FEIN on the line stands on an earlier E, and whether the identity number on it stands
// under the open E.
#[derive(Clone, Copy, PartialEq, Eq, Default)]
pub struct Seen {
    pub fein: bool,
    pub id: bool,
}

// What stands around a record's fields: the columns that its rules look at, the entity code, the
// context and what was seen.
#[derive(Clone, Copy)]
pub struct Around {
    pub landmarks: Landmarks,
    pub code: [u8; 4],
    pub here: Context,
    pub seen: Seen,
}

// The columns of a record that the rules of its other fields look at; 0 where it has no such field.
#[derive(Clone, Copy)]
pub struct Landmarks {
    pub year_first: u16,
    pub year_last: u16,
    pub period_first: u16,
    pub period_last: u16,
    pub state: u16,
    pub final_flag: u16,
    pub further: FurtherLandmarks,
}

// The same for rules that PFML has not: the number that asks for a licence; of a difference the
// whole and the part; and where an account number's second part begins.
#[derive(Clone, Copy)]
pub struct FurtherLandmarks {
    pub licensed_first: u16,
    pub licensed_last: u16,
    pub whole_first: u16,
    pub whole_last: u16,
    pub part_first: u16,
    pub part_last: u16,
    pub head_last: u16,
    pub tail_first: u16,
    pub tail_last: u16,
}

// A record that has none of these.
pub const NONE_FURTHER: FurtherLandmarks = FurtherLandmarks {
    licensed_first: 0,
    licensed_last: 0,
    whole_first: 0,
    whole_last: 0,
    part_first: 0,
    part_last: 0,
    head_last: 0,
    tail_first: 0,
    tail_last: 0,
};

// The rule by which a field is held against its context.
#[derive(Clone, Copy, PartialEq, Eq)]
pub enum Rule {
    // Most fields have it. It is a variant and no `None`: a table would write `Some` before each other.
    Nothing,
    YearInTime,
    QuarterInTime,
    YearOfA,
    PeriodOfA,
    FeinNew,
    FeinOfE,
    DateInQuarter,
    IdentityNew,
    CountOfS,
    WagesOfS,
    FileCountOfS,
    FileCountOfE,
    FileWagesOfS,
    FinalIfCurrent,
    // A rule of another format than PFML.
    More(FurtherRule),
}

// The rules that PFML has not.
#[derive(Clone, Copy, PartialEq, Eq)]
pub enum FurtherRule {
    // A's year is not after that of the last closed quarter.
    YearHeld,
    // The first E tells the file's quarter, which is not after the last closed one; a later E has
    // the same.
    QuarterOfE,
    // There is room for an employer; a FEIN may stand on several.
    ListRoom,
    // The account is the open E's.
    AccountOfE,
    // The date is the last day of the file's quarter.
    QuarterEnd,
    // The amount is the second sum of the S records under the open E.
    SecondOfS,
}
