// By which rule each field is held against its context.
#![tactic(auto, unfolding(crate::specs::FieldRules::rules, crate::specs::FieldRules::rules_of_a, crate::specs::FieldRules::rules_of_e, crate::specs::FieldRules::rules_of_f, crate::specs::FieldRules::rules_of_s, crate::specs::FieldRules::rules_of_t))]

ghost use Rattle.std.specs.Prelude.{◌≡◌};
ghost use Rattle.pfml_fields.specs.FieldRules.{rules};

use edits::Rule;

// A rule for each row of the list of fields, in its order.
const RULES: [Rule; 72] = [
    // A: the transmitter
    Rule::Nothing,
    Rule::YearInTime, // Tax Year
    Rule::Nothing,
    Rule::Nothing,
    Rule::QuarterInTime, // Period Covered
    Rule::Nothing,
    Rule::Nothing,
    Rule::Nothing,
    Rule::Nothing,
    Rule::Nothing,
    Rule::Nothing,
    Rule::Nothing,
    Rule::Nothing,
    Rule::Nothing,
    Rule::Nothing,
    Rule::Nothing,
    Rule::Nothing,
    // E: an employer
    Rule::Nothing,
    Rule::YearOfA, // Tax Year
    Rule::FeinNew, // Employer Federal Employer ID Number
    Rule::Nothing,
    Rule::Nothing,
    Rule::Nothing,
    Rule::Nothing,
    Rule::Nothing,
    Rule::Nothing,
    Rule::Nothing,
    Rule::Nothing,
    Rule::Nothing,
    Rule::Nothing,
    Rule::Nothing,
    Rule::Nothing,
    Rule::Nothing,
    Rule::Nothing,
    Rule::PeriodOfA, // Period Covered
    Rule::Nothing,
    Rule::Nothing,
    Rule::Nothing,
    Rule::Nothing,
    Rule::Nothing,
    Rule::Nothing,
    Rule::Nothing,
    Rule::Nothing,
    Rule::FinalIfCurrent, // Is this your final return?
    Rule::DateInQuarter, // Cease Date
    // S: an employee
    Rule::Nothing,
    Rule::IdentityNew, // Social Security Number / ITIN
    Rule::Nothing,
    Rule::Nothing,
    Rule::Nothing,
    Rule::PeriodOfA, // Reporting Quarter and Year: the quarter
    Rule::YearOfA, // Reporting Quarter and Year: the year
    Rule::Nothing,
    Rule::Nothing,
    Rule::Nothing,
    Rule::Nothing,
    Rule::FeinOfE, // Employer's FEIN
    Rule::Nothing,
    // T: the totals of an employer
    Rule::Nothing,
    Rule::CountOfS, // Total Number of S Records
    Rule::Nothing,
    Rule::FeinOfE, // Employer's FEIN
    Rule::Nothing,
    Rule::WagesOfS, // Total Wages Paid This Quarter
    Rule::Nothing,
    // F: the end of the file
    Rule::Nothing,
    Rule::FileCountOfS, // Total Number of S Records in File
    Rule::FileCountOfE, // Total Number of E Records in File
    Rule::Nothing,
    Rule::Nothing,
    Rule::FileWagesOfS, // Total Wages in File
    Rule::Nothing,
];

// The rules, which stand in the program once.
pub fn all_rules() -> &'static [Rule; 72]
    ensures { result.now ≡ rules }
{
    &RULES
}
