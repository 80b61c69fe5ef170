// The fields of the five records, class beside first and last column, and the map that gives the
// field of every column. A record is named by its place in the order A, E, S, T, F, counted from 0:
// the enum of the records stands above, in crate `pfml`.
#![tactic(auto, unfolding(crate::specs::Fields::fields, crate::specs::Fields::fields_of_a, crate::specs::Fields::fields_of_e, crate::specs::Fields::fields_of_f, crate::specs::Fields::fields_of_s, crate::specs::Fields::fields_of_t, crate::specs::Fields::first_field, crate::specs::Fields::starts))]

pub mod field_rules;
mod map;

ghost use Rattle.std.specs.Prelude.{◌≡◌};
ghost use Rattle.pfml_fields.specs.Fields.{fields, first_field};
ghost use Rattle.pfml_fields.specs.Map.{fields_at, numbers_of};

use field::class::Field;
use field::row;

// How many columns a record has.
pub const RECORD: u16 = 290;

// One row a field: its class, its first and its last column. The fields that rules, meaning,
// writers and the fast path name come first; each stands in the list below.

// A: the transmitter
pub const YEAR_OF_A: Field = row!(TaxYear, 2, 5);

pub const PERIOD_OF_A: Field = row!(Period, 19, 20);

pub const STATE_OF_A: Field = row!(StateCode, 139, 140);

// E: an employer
pub const YEAR_OF_E: Field = row!(TaxYear, 2, 5);

pub const FEIN_OF_E: Field = row!(EmployerFein, 6, 14);

pub const STATE_OF_E: Field = row!(StateCode, 139, 140);

pub const ACCOUNT_OF_E: Field = row!(AccountNumber, 173, 182);

pub const AMENDED_OF_E: Field = row!(Flag, 187, 187);

pub const PERIOD_OF_E: Field = row!(Period, 188, 189);

pub const NO_WAGES_OF_E: Field = row!(Flag, 190, 190);

pub const FINAL_OF_E: Field = row!(Flag, 282, 282);

pub const CEASE_DATE_OF_E: Field = row!(CeaseDate, 283, 290);

// S: an employee
pub const LETTER_OF_S: Field = row!(RecordLetter, 1, 1);

pub const IDENTITY_OF_S: Field = row!(IdentityNumber, 2, 10);

pub const LAST_NAME_OF_S: Field = row!(PersonName, 11, 30);

pub const FIRST_NAME_OF_S: Field = row!(PersonName, 31, 42);

pub const PERIOD_OF_S: Field = row!(Period, 46, 47);

pub const YEAR_OF_S: Field = row!(TaxYear, 48, 51);

pub const WAGES_OF_S: Field = row!(Numeric, 64, 77);

pub const CODE_OF_S: Field = row!(EntityCode, 143, 146);

pub const FEIN_OF_S: Field = row!(Numeric, 147, 155);

// T: the totals of an employer
pub const LETTER_OF_T: Field = row!(RecordLetter, 1, 1);

pub const COUNT_OF_T: Field = row!(Numeric, 2, 8);

pub const CODE_OF_T: Field = row!(EntityCode, 9, 12);

pub const FEIN_OF_T: Field = row!(Numeric, 13, 21);

pub const WAGES_OF_T: Field = row!(Numeric, 27, 40);

// F: the end of the file
pub const LETTER_OF_F: Field = row!(RecordLetter, 1, 1);

pub const COUNT_OF_F: Field = row!(Numeric, 2, 11);

pub const EMPLOYERS_OF_F: Field = row!(Numeric, 12, 21);

pub const CODE_OF_F: Field = row!(EntityCode, 22, 25);

pub const WAGES_OF_F: Field = row!(Numeric, 41, 55);

// All fields, record after record.
const FIELDS: [Field; 72] = [
    // A: the transmitter
    row!(RecordLetter, 1, 1),
    YEAR_OF_A,
    row!(EmployerFein, 6, 14),
    row!(EntityCode, 15, 18),
    PERIOD_OF_A,
    row!(BlankSpace, 21, 23),
    row!(RequiredText, 24, 73),
    row!(RequiredText, 74, 113),
    row!(RequiredText, 114, 138),
    STATE_OF_A,
    row!(BlankSpace, 141, 153),
    row!(ZipCode, 154, 158),
    row!(ZipExtension, 159, 163),
    row!(RequiredText, 164, 193),
    row!(Numeric, 194, 203),
    row!(OptionalText, 204, 207),
    row!(BlankSpace, 208, 290),
    // E: an employer
    row!(RecordLetter, 1, 1),
    YEAR_OF_E,
    FEIN_OF_E,
    row!(BlankSpace, 15, 23),
    row!(RequiredText, 24, 73),
    row!(RequiredText, 74, 113),
    row!(RequiredText, 114, 138),
    STATE_OF_E,
    row!(BlankSpace, 141, 148),
    row!(ZipExtension, 149, 153),
    row!(ZipCode, 154, 158),
    row!(BlankSpace, 159, 166),
    row!(EntityCode, 167, 170),
    row!(BlankSpace, 171, 172),
    ACCOUNT_OF_E,
    row!(BlankSpace, 183, 186),
    AMENDED_OF_E,
    PERIOD_OF_E,
    NO_WAGES_OF_E,
    row!(ThirdQuarterFlag, 191, 191),
    row!(BlankSpace, 192, 200),
    row!(RequiredText, 201, 230),
    row!(RequiredText, 231, 260),
    row!(Numeric, 261, 270),
    row!(OptionalText, 271, 274),
    row!(BlankSpace, 275, 281),
    FINAL_OF_E,
    CEASE_DATE_OF_E,
    // S: an employee
    LETTER_OF_S,
    IDENTITY_OF_S,
    LAST_NAME_OF_S,
    FIRST_NAME_OF_S,
    row!(BlankSpace, 43, 45),
    PERIOD_OF_S,
    YEAR_OF_S,
    row!(BlankSpace, 52, 63),
    WAGES_OF_S,
    row!(BlankSpace, 78, 142),
    CODE_OF_S,
    FEIN_OF_S,
    row!(BlankSpace, 156, 290),
    // T: the totals of an employer
    LETTER_OF_T,
    COUNT_OF_T,
    CODE_OF_T,
    FEIN_OF_T,
    row!(BlankSpace, 22, 26),
    WAGES_OF_T,
    row!(BlankSpace, 41, 290),
    // F: the end of the file
    LETTER_OF_F,
    COUNT_OF_F,
    EMPLOYERS_OF_F,
    CODE_OF_F,
    row!(BlankSpace, 26, 40),
    WAGES_OF_F,
    row!(BlankSpace, 56, 290),
];

// The number of each record's first field, and how many fields there are.
pub const FIRST_OF_A: usize = 0;

pub const FIRST_OF_E: usize = 17;

pub const FIRST_OF_S: usize = 45;

pub const FIRST_OF_T: usize = 58;

pub const FIRST_OF_F: usize = 65;

pub const ALL_FIELDS: usize = 72;

const STARTS: [usize; 5] = [FIRST_OF_A, FIRST_OF_E, FIRST_OF_S, FIRST_OF_T, FIRST_OF_F];

// The list of fields, which stands in the program once.
pub fn all_rows() -> &'static [Field; 72]
    ensures { result.now ≡ fields }
{
    &FIELDS
}

// The number of a record's first field; past the last record, the number of all fields.
pub fn first_field(kind: usize) -> usize
    ensures { result ≡ first_field kind }
{
    if kind < 5 {
        return STARTS[kind];
    }
    ALL_FIELDS
}

// The field that a column of a record lies in, where there are such a record and such a column.
// Columns are counted from 1.
pub fn field_of(kind: usize, column: u16) -> Option<usize>
    ensures { numbers_of result ≡ fields_at kind column }
{
    if 5 <= kind {
        return None;
    }
    if column == 0 {
        return None;
    }
    if RECORD < column {
        return None;
    }
    let map = map::all_columns();
    let at = kind * RECORD as usize + (column as usize - 1);
    Some(map[at] as usize)
}
