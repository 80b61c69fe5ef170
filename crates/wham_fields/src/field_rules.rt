// By which rule each field is held against its context.
#![tactic(auto, unfolding(crate::specs::FieldRules::rules, crate::specs::FieldRules::rules_of_a, crate::specs::FieldRules::rules_of_e, crate::specs::FieldRules::rules_of_f, crate::specs::FieldRules::rules_of_r, crate::specs::FieldRules::rules_of_s, crate::specs::FieldRules::rules_of_t))]

ghost use Rattle.std.specs.Prelude.{◌≡◌};
ghost use Rattle.wham_fields.specs.FieldRules.{rules};

use crate::Edition;
use edits::{FurtherRule, Rule};

// Edition 2024: a rule for each row of the list of fields, in its order.
const RULES_OF_2024: [Rule; 78] = [
    // A: the transmitter
    Rule::Nothing,
    Rule::More(FurtherRule::YearHeld), // tax year
    Rule::Nothing,
    Rule::Nothing,
    Rule::Nothing,
    Rule::Nothing,
    Rule::Nothing,
    Rule::Nothing,
    Rule::Nothing,
    Rule::Nothing,
    Rule::Nothing,
    Rule::Nothing,
    Rule::Nothing,
    Rule::Nothing,
    Rule::Nothing,
    Rule::Nothing,
    // E: an employer
    Rule::Nothing,
    Rule::YearOfA, // tax year
    Rule::More(FurtherRule::ListRoom), // employer's FEIN
    Rule::Nothing,
    Rule::Nothing,
    Rule::Nothing,
    Rule::Nothing,
    Rule::Nothing,
    Rule::Nothing,
    Rule::Nothing,
    Rule::Nothing,
    Rule::Nothing,
    Rule::Nothing,
    Rule::Nothing,
    Rule::Nothing,
    Rule::More(FurtherRule::QuarterOfE), // period
    Rule::Nothing,
    Rule::Nothing,
    Rule::Nothing,
    Rule::Nothing,
    Rule::Nothing,
    Rule::Nothing,
    Rule::Nothing,
    Rule::Nothing,
    // S: an employee
    Rule::Nothing,
    Rule::Nothing,
    Rule::Nothing,
    Rule::Nothing,
    Rule::Nothing,
    Rule::Nothing,
    Rule::PeriodOfA, // month
    Rule::YearOfA, // year
    Rule::Nothing,
    Rule::Nothing,
    Rule::Nothing,
    Rule::Nothing,
    Rule::Nothing,
    Rule::More(FurtherRule::AccountOfE), // withholding account
    Rule::Nothing,
    // R: a deposit
    Rule::Nothing,
    Rule::More(FurtherRule::QuarterEnd), // quarter being amended
    Rule::Nothing,
    Rule::Nothing,
    Rule::Nothing,
    // T: the totals of an employer
    Rule::Nothing,
    Rule::CountOfS, // number of S records
    Rule::Nothing,
    Rule::Nothing,
    Rule::Nothing,
    Rule::Nothing,
    Rule::Nothing,
    Rule::More(FurtherRule::SecondOfS), // original total of the S records
    Rule::Nothing,
    Rule::WagesOfS, // amended total
    Rule::Nothing,
    // F: the end of the file
    Rule::Nothing,
    Rule::FileCountOfS, // number of S records
    Rule::FileCountOfE, // number of E records
    Rule::Nothing,
    Rule::Nothing,
    Rule::FileWagesOfS, // total
    Rule::Nothing,
];

// The rules, which stand in the program once.
pub fn all_rules(edition: Edition) -> &'static [Rule; 78]
    ensures { result.now ≡ rules edition }
{
    match edition {
        Edition::Of2024 => &RULES_OF_2024,
    }
}
