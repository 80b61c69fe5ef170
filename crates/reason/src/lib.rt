// Why a file is refused, and where.
#![tactic(auto)]

ghost use Rattle.std.specs.Prelude.{◌≡◌};
ghost use Rattle.reason.specs.ReasonNumbers.{number_of, reason_of, is_listed, reason_listed};

// One reason for each number of the paper's table, for 64 and 65 of document 02, and for 73, which
// the formats bring. `u8::from` gives the number of a reason, and `Reason::try_from` is the way back:
// nothing else goes by cases on the reasons.
#[derive(Clone, Copy, PartialEq, Eq)]
pub enum Reason {
    // A line's length is not the record's.
    LineLength = 1,
    // The record's characters, and no line end.
    NoLineEnd = 2,
    // A character outside hex 20 to 7E.
    BadCharacter = 3,
    // A record letter other than A, E, S, T, F.
    UnknownLetter = 4,
    // The input ends before A.
    EndsBeforeA = 5,
    // The input ends after A.
    EndsAfterA = 6,
    // The input ends with E open.
    EndsWithEOpen = 7,
    // The input ends after T without F.
    EndsWithoutF = 8,
    // Before A, another letter.
    BeforeA = 10,
    // A again, also after F.
    SecondA = 11,
    // S with no E open, before F.
    SWithoutE = 12,
    // T after A only.
    TWithoutE = 13,
    // F after A only.
    FWithoutE = 14,
    // E while E open.
    EWhileEOpen = 15,
    // S under an E saying 0.
    SUnderZeroE = 16,
    // F while E open.
    FWhileEOpen = 17,
    // T right after T.
    SecondT = 18,
    // F after F.
    SecondF = 19,
    // E, S or T after F.
    BehindF = 20,
    // Number: a column that is no digit.
    NotDigit = 30,
    // Blank space: a column that is not blank.
    NotBlank = 31,
    // Required text: all blank.
    TextMissing = 32,
    // Text whose first column is blank.
    TextIndented = 33,
    // The entity code.
    NotEntityCode = 34,
    // State: none of the codes of Appendix A.
    UnknownState = 35,
    // ZIP.
    BadZip = 36,
    // ZIP extension.
    BadZipExtension = 37,
    // Year below 2025.
    YearTooEarly = 38,
    // Year beyond the current quarter's.
    YearTooLate = 39,
    // Period: not 03, 06, 09, 12.
    BadPeriod = 40,
    // Period after the current quarter.
    PeriodTooLate = 41,
    // Year that is not A's.
    YearNotOfA = 42,
    // Period that is not A's.
    PeriodNotOfA = 43,
    // FEIN that begins with 69.
    FeinPrefix = 44,
    // FEIN on an earlier E.
    FeinRepeated = 45,
    // FEIN that is not the open E's.
    FeinNotOfE = 46,
    // Flag: not 0 or 1.
    BadFlag = 47,
    // Cease date: no calendar date.
    NoDate = 48,
    // Cease date outside A's quarter.
    DateOutsideQuarter = 49,
    // Cease date with 282 at 0.
    DateNotFinal = 50,
    // No cease date with 282 at 1.
    DateMissing = 51,
    // Identity number that begins with 666, or with 9 and is no ITIN that the IRS issues.
    IdentityPrefix = 52,
    // Identity number already under this E.
    IdentityRepeated = 53,
    // Name: a column that is no letter, blank, hyphen or apostrophe.
    BadNameCharacter = 54,
    // T count is not that of the S records since E.
    CountNotOfS = 55,
    // T counts none though E says 1.
    NoneUnderE = 56,
    // T wages are not the S records' sum.
    WagesNotOfS = 57,
    // F count of S records.
    FileCountNotOfS = 58,
    // F count of E records.
    FileCountNotOfE = 59,
    // F wages.
    FileWagesNotOfS = 60,
    // An S beyond 100,000.
    TooManyS = 61,
    // The id table is full.
    IdTableFull = 62,
    // The employer list is full.
    EmployerListFull = 63,
    // FEIN of nine zeros.
    FeinZero = 64,
    // E is no final return in a file of the current quarter.
    NotFinal = 65,
    // Bad quarter at opening.
    BadQuarter = 70,
    // Line or end after acceptance.
    WalkEnded = 71,
    // State unfit.
    StateUnfit = 72,
    // At opening, a format's number that names none.
    UnknownFormat = 73,
    // T or F not to be written now.
    NotToBeWritten = 80,
    // T with no S under an E saying 1.
    NoneToTotal = 81,
    // A sum too large for its field.
    SumTooLarge = 82,
    // The slice is not of the record's length.
    SliceLength = 83,
    // The slice to build a record in is not of the record's length.
    BuildLength = 84,
    // A value too long for its field.
    ValueTooLong = 85,
    // A deposit's quarter is not the file's.
    DepositNotOfQuarter = 91,
}

// A refusal: a place together with the reason. Line and column are counted from 1.
#[derive(Clone, Copy, PartialEq, Eq)]
pub struct Refusal {
    pub line: u32,
    pub column: u16,
    pub reason: Reason,
}

// What an edit finds broken: the column, and the reason.
#[derive(Clone, Copy, PartialEq, Eq)]
pub struct Broken(pub u16, pub Reason);

// What an edit finds in a line: nothing, or what is broken.
pub type Edit = Result<(), Broken>;

// The paper's number of a reason.
impl From<Reason> for u8 {
    ghost from_gives = { λ reason number. number ≡ number_of reason };

    fn from(reason: Reason) -> u8 {
        reason as u8
    }
}

// No reason has the number.
#[derive(Clone, Copy, PartialEq, Eq)]
pub struct NotListed;

// The reason that has a number of the paper's table.
impl TryFrom<u64> for Reason {
    type Error = NotListed;

    ghost try_from_gives = { λ number reason. reason ≡ reason_listed number };

    fn try_from(number: u64) -> Result<Reason, NotListed> {
        Ok(match number {
            1 => Reason::LineLength,
            2 => Reason::NoLineEnd,
            3 => Reason::BadCharacter,
            4 => Reason::UnknownLetter,
            5 => Reason::EndsBeforeA,
            6 => Reason::EndsAfterA,
            7 => Reason::EndsWithEOpen,
            8 => Reason::EndsWithoutF,
            10 => Reason::BeforeA,
            11 => Reason::SecondA,
            12 => Reason::SWithoutE,
            13 => Reason::TWithoutE,
            14 => Reason::FWithoutE,
            15 => Reason::EWhileEOpen,
            16 => Reason::SUnderZeroE,
            17 => Reason::FWhileEOpen,
            18 => Reason::SecondT,
            19 => Reason::SecondF,
            20 => Reason::BehindF,
            30 => Reason::NotDigit,
            31 => Reason::NotBlank,
            32 => Reason::TextMissing,
            33 => Reason::TextIndented,
            34 => Reason::NotEntityCode,
            35 => Reason::UnknownState,
            36 => Reason::BadZip,
            37 => Reason::BadZipExtension,
            38 => Reason::YearTooEarly,
            39 => Reason::YearTooLate,
            40 => Reason::BadPeriod,
            41 => Reason::PeriodTooLate,
            42 => Reason::YearNotOfA,
            43 => Reason::PeriodNotOfA,
            44 => Reason::FeinPrefix,
            45 => Reason::FeinRepeated,
            46 => Reason::FeinNotOfE,
            47 => Reason::BadFlag,
            48 => Reason::NoDate,
            49 => Reason::DateOutsideQuarter,
            50 => Reason::DateNotFinal,
            51 => Reason::DateMissing,
            52 => Reason::IdentityPrefix,
            53 => Reason::IdentityRepeated,
            54 => Reason::BadNameCharacter,
            55 => Reason::CountNotOfS,
            56 => Reason::NoneUnderE,
            57 => Reason::WagesNotOfS,
            58 => Reason::FileCountNotOfS,
            59 => Reason::FileCountNotOfE,
            60 => Reason::FileWagesNotOfS,
            61 => Reason::TooManyS,
            62 => Reason::IdTableFull,
            63 => Reason::EmployerListFull,
            64 => Reason::FeinZero,
            65 => Reason::NotFinal,
            70 => Reason::BadQuarter,
            71 => Reason::WalkEnded,
            72 => Reason::StateUnfit,
            73 => Reason::UnknownFormat,
            80 => Reason::NotToBeWritten,
            81 => Reason::NoneToTotal,
            82 => Reason::SumTooLarge,
            83 => Reason::SliceLength,
            84 => Reason::BuildLength,
            85 => Reason::ValueTooLong,
            91 => Reason::DepositNotOfQuarter,
            _ => return Err(NotListed),
        })
    }
}

// The reason that has a number; where none has it, the reason of 72.
pub fn reason_of(number: u64) -> Reason
    ensures { result ≡ reason_of number }
{
    Reason::try_from(number).unwrap_or(Reason::StateUnfit)
}

// Whether a number is one of the paper's table.
pub fn is_listed(number: u64) -> bool
    ensures { result ≡ is_listed number }
{
    Reason::try_from(number).is_ok()
}
