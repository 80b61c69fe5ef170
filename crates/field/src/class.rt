// The classes of fields, and the class test of a field.
#![tactic(auto, unfolding(crate::specs::ClassTests::class_test, crate::specs::Classes::class_of, crate::specs::Classes::classes))]

ghost use Rattle.std.specs.Prelude.{◌≡◌, get_or};
ghost use Rattle.reason.specs.ReasonNumbers.{finding_of};
ghost use Rattle.chars.specs.Characters.{capitals};
ghost use Rattle.field.specs.Classes.{class_of};
ghost use Rattle.field.specs.ClassTests.{lead_test, allowed_in, class_test};

use chars::columns;
use chars::columns::Allowed;
use reason::Edit;

// What a field is.
#[derive(Clone, Copy, PartialEq, Eq)]
pub enum Class {
    // Unused columns, where a format ignores them.
    Ignored,
    // The record's letter.
    RecordLetter,
    // Blank space.
    BlankSpace,
    // A number.
    Numeric,
    // A number, or blanks alone.
    AccountNumber,
    // 0 or 1.
    Flag,
    // 0 or 1, asked in period 09 alone.
    ThirdQuarterFlag,
    // The last month of a quarter.
    Period,
    // Required text.
    RequiredText,
    // Optional text.
    OptionalText,
    // A name: required text of letters, blanks, hyphens and apostrophes.
    PersonName,
    // The taxing entity's code.
    EntityCode,
    // A state or a province.
    StateCode,
    // A ZIP code, as the state has it.
    ZipCode,
    // A ZIP code's extension, as the state has it.
    ZipExtension,
    // A year.
    TaxYear,
    // A FEIN with rules of its own.
    EmployerFein,
    // An employee's identity number.
    IdentityNumber,
    // A date, MMDDYYYY.
    CeaseDate,
    // A class of another format than PFML.
    More(Further),
}

// What a field is that PFML has not.
#[derive(Clone, Copy, PartialEq, Eq)]
pub enum Further {
    // A social security number, which never begins with 9.
    SocialSecurity,
    // The numeric code of the state, Maine's.
    MaineCode,
    // A licence, required where another field of the record names who has it.
    Licence,
    // An amount that may be negative, the difference of two others of the record.
    Difference,
}

// A field of a record: its class, its first and its last column. The crates below know no field, and
// tell columns by their bounds, as the definitions do.
#[derive(Clone, Copy, PartialEq, Eq)]
pub struct Field {
    pub class: Class,
    pub first: u16,
    pub last: u16,
}

// A row of three numbers is a field: the number of its class, its first and its last column. A number
// that names no class is that of an ignored one.
impl From<[u16; 3]> for Field {
    ghost from_gives = { λ row field. field ≡ (record { class = class_of (get_or row 0 0); first = get_or row 1 0; last = get_or row 2 0 }) };

    fn from(row: [u16; 3]) -> Field {
        Field {
            class: class_of(row[0]),
            first: row[1],
            last: row[2],
        }
    }
}

// A row of a list of fields.
#[macro_export]
macro_rules! row {
    (More($further:ident), $first:literal, $last:literal) => {
        $crate::class::Field {
            class: $crate::class::Class::More($crate::class::Further::$further),
            first: $first,
            last: $last,
        }
    };
    ($class:ident, $first:literal, $last:literal) => {
        $crate::class::Field {
            class: $crate::class::Class::$class,
            first: $first,
            last: $last,
        }
    };
}

// The class of a number.
pub fn class_of(number: u16) -> Class
    ensures { result ≡ class_of number }
{
    match number {
        0 => Class::Ignored,
        1 => Class::RecordLetter,
        2 => Class::BlankSpace,
        3 => Class::Numeric,
        4 => Class::AccountNumber,
        5 => Class::Flag,
        6 => Class::ThirdQuarterFlag,
        7 => Class::Period,
        8 => Class::RequiredText,
        9 => Class::OptionalText,
        10 => Class::PersonName,
        11 => Class::EntityCode,
        12 => Class::StateCode,
        13 => Class::ZipCode,
        14 => Class::ZipExtension,
        15 => Class::TaxYear,
        16 => Class::EmployerFein,
        17 => Class::IdentityNumber,
        18 => Class::CeaseDate,
        19 => Class::More(Further::SocialSecurity),
        20 => Class::More(Further::MaineCode),
        21 => Class::More(Further::Licence),
        22 => Class::More(Further::Difference),
        _ => Class::Ignored,
    }
}

// What a field of text says before its columns are looked at.
pub fn lead_edit(line: &[u8], field: Field) -> Edit
    ensures { finding_of result ≡ lead_test field.class (capitals line.now) field.first field.last }
{
    match field.class {
        Class::RequiredText | Class::PersonName => text::required(line, field.first, field.last),
        Class::OptionalText => text::optional(line, field.first, field.last),
        _ => Ok(()),
    }
}

// What each column of a field may hold. The columns of any class not named here are left to the
// field's own rule.
pub fn allowed_in(line: &[u8], field: Field) -> Allowed
    ensures { result ≡ allowed_in field.class (capitals line.now) field.first field.last }
{
    match field.class {
        Class::BlankSpace => Allowed::Blanks,
        Class::AccountNumber => account_columns(line, field),
        Class::PersonName => Allowed::OfNames,
        Class::Numeric
        | Class::TaxYear
        | Class::EmployerFein
        | Class::IdentityNumber
        | Class::CeaseDate
        | Class::More(Further::SocialSecurity | Further::MaineCode) => Allowed::Digits,
        _ => Allowed::Anything,
    }
}

// An account number that is all blank may be so; any other has digits.
fn account_columns(line: &[u8], field: Field) -> Allowed
    ensures { result ≡ allowed_in Class.AccountNumber (capitals line.now) field.first field.last }
{
    if text::all_blank(line, field.first, field.last) {
        return Allowed::Anything;
    }
    Allowed::Digits
}

// The class test of a field.
pub fn class_edit(line: &[u8], field: Field) -> Edit
    ensures { finding_of result ≡ class_test field.class (capitals line.now) field.first field.last }
{
    lead_edit(line, field)?;
    columns::every_column(allowed_in(line, field), line, field.first, field.last)
}
