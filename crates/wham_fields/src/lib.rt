// The fields of the six records of the amended withholding file: class beside first and last
// column. A record is named by its letter, in the order A, E, S, R, T, F.
#![tactic(auto, unfolding(crate::specs::Fields::fields, crate::specs::Fields::fields_of_a, crate::specs::Fields::fields_of_e, crate::specs::Fields::fields_of_f, crate::specs::Fields::fields_of_r, crate::specs::Fields::fields_of_s, crate::specs::Fields::fields_of_t))]

pub mod field_rules;

ghost use Rattle.std.specs.Prelude.{◌≡◌};
ghost use Rattle.wham_fields.specs.Fields.{fields};

use field::class::Field;
use field::row;

// Which of Maine's specifications of this file is meant. The columns are the same in each; letters,
// places and some rules are not.
#[derive(Clone, Copy)]
pub enum Edition {
    // Document 001.
    Of2024,
}

// How many columns a record has.
pub const RECORD: u16 = 275;

// One row a field: its class, its first and its last column. The fields that rules, meaning and
// writers name come first; each stands in the list below.

// A: the transmitter
pub const YEAR_OF_A: Field = row!(Numeric, 2, 5);

pub const STATE_OF_A: Field = row!(StateCode, 139, 140);

// E: an employer
pub const YEAR_OF_E: Field = row!(Numeric, 2, 5);

pub const FEIN_OF_E: Field = row!(Numeric, 6, 14);

pub const STATE_OF_E: Field = row!(StateCode, 139, 140);

pub const PERIOD_OF_E: Field = row!(Period, 188, 189);

pub const FOLLOW_OF_E: Field = row!(Flag, 190, 190);

pub const PROCESSOR_OF_E: Field = row!(Numeric, 209, 217);

pub const ACCOUNT_OF_E: Field = row!(RequiredText, 258, 268);

// S: an employee
pub const IDENTITY_OF_S: Field = row!(More(SocialSecurity), 2, 10);

pub const LAST_NAME_OF_S: Field = row!(RequiredText, 11, 30);

pub const FIRST_NAME_OF_S: Field = row!(RequiredText, 31, 42);

pub const INITIAL_OF_S: Field = row!(Ignored, 43, 43);

pub const PERIOD_OF_S: Field = row!(Period, 46, 47);

pub const YEAR_OF_S: Field = row!(Numeric, 48, 51);

pub const ORIGINAL_OF_S: Field = row!(Numeric, 191, 202);

pub const CORRECT_OF_S: Field = row!(Numeric, 203, 214);

pub const ACCOUNT_OF_S: Field = row!(RequiredText, 215, 225);

// R: a deposit
pub const QUARTER_OF_R: Field = row!(Numeric, 2, 9);

// T: the totals of an employer
pub const LETTER_OF_T: Field = row!(RecordLetter, 1, 1);

pub const COUNT_OF_T: Field = row!(Numeric, 2, 8);

pub const CODE_OF_T: Field = row!(EntityCode, 9, 12);

pub const PAYMENTS_OF_T: Field = row!(Numeric, 112, 122);

pub const DUE_OF_T: Field = row!(More(Difference), 123, 136);

pub const ORIGINAL_OF_T: Field = row!(Numeric, 175, 188);

pub const AMENDED_OF_T: Field = row!(Numeric, 213, 226);

// F: the end of the file
pub const LETTER_OF_F: Field = row!(RecordLetter, 1, 1);

pub const COUNT_OF_F: Field = row!(Numeric, 2, 11);

pub const EMPLOYERS_OF_F: Field = row!(Numeric, 12, 21);

pub const CODE_OF_F: Field = row!(EntityCode, 22, 25);

pub const TOTAL_OF_F: Field = row!(Numeric, 41, 55);

// All fields, record after record.
const FIELDS: [Field; 78] = [
    // A: the transmitter
    row!(RecordLetter, 1, 1),
    YEAR_OF_A,
    row!(Numeric, 6, 14),
    row!(EntityCode, 15, 18),
    row!(Ignored, 19, 23),
    row!(RequiredText, 24, 73),
    row!(RequiredText, 74, 113),
    row!(RequiredText, 114, 138),
    STATE_OF_A,
    row!(Ignored, 141, 153),
    row!(ZipCode, 154, 158),
    row!(ZipExtension, 159, 163),
    row!(RequiredText, 164, 193),
    row!(Numeric, 194, 203),
    row!(OptionalText, 204, 207),
    row!(Ignored, 208, 275),
    // E: an employer
    row!(RecordLetter, 1, 1),
    YEAR_OF_E,
    FEIN_OF_E,
    row!(Ignored, 15, 23),
    row!(RequiredText, 24, 73),
    row!(RequiredText, 74, 113),
    row!(RequiredText, 114, 138),
    STATE_OF_E,
    row!(Ignored, 141, 148),
    row!(ZipExtension, 149, 153),
    row!(ZipCode, 154, 158),
    row!(Ignored, 159, 166),
    row!(EntityCode, 167, 170),
    row!(More(MaineCode), 171, 172),
    row!(Ignored, 173, 187),
    PERIOD_OF_E,
    FOLLOW_OF_E,
    row!(Ignored, 191, 208),
    PROCESSOR_OF_E,
    row!(More(Licence), 218, 224),
    row!(Numeric, 225, 228),
    row!(Ignored, 229, 257),
    ACCOUNT_OF_E,
    row!(Ignored, 269, 275),
    // S: an employee
    row!(RecordLetter, 1, 1),
    IDENTITY_OF_S,
    LAST_NAME_OF_S,
    FIRST_NAME_OF_S,
    INITIAL_OF_S,
    row!(More(MaineCode), 44, 45),
    PERIOD_OF_S,
    YEAR_OF_S,
    row!(Ignored, 52, 142),
    row!(EntityCode, 143, 146),
    row!(Ignored, 147, 190),
    ORIGINAL_OF_S,
    CORRECT_OF_S,
    ACCOUNT_OF_S,
    row!(Ignored, 226, 275),
    // R: a deposit
    row!(RecordLetter, 1, 1),
    QUARTER_OF_R,
    row!(Ignored, 10, 18),
    row!(Numeric, 19, 27),
    row!(Ignored, 28, 275),
    // T: the totals of an employer
    LETTER_OF_T,
    COUNT_OF_T,
    CODE_OF_T,
    row!(Ignored, 13, 111),
    PAYMENTS_OF_T,
    DUE_OF_T,
    row!(Ignored, 137, 174),
    ORIGINAL_OF_T,
    row!(Ignored, 189, 212),
    AMENDED_OF_T,
    row!(Ignored, 227, 275),
    // F: the end of the file
    LETTER_OF_F,
    COUNT_OF_F,
    EMPLOYERS_OF_F,
    CODE_OF_F,
    row!(Ignored, 26, 40),
    TOTAL_OF_F,
    row!(Ignored, 56, 275),
];

// The number of each record's first field, and how many fields there are.
pub const FIRST_OF_A: usize = 0;

pub const FIRST_OF_E: usize = 16;

pub const FIRST_OF_S: usize = 40;

pub const FIRST_OF_R: usize = 55;

pub const FIRST_OF_T: usize = 60;

pub const FIRST_OF_F: usize = 71;

pub const ALL_FIELDS: usize = 78;

// The list of fields, which stands in the program once.
pub fn all_rows() -> &'static [Field; 78]
    ensures { result.now ≡ fields }
{
    &FIELDS
}
