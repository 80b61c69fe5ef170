// The fields of a record in order: the first broken column of the first broken field.
#![tactic(auto, unfolding(crate::specs::Tests::rules_test))]

ghost use Rattle.std.specs.Prelude.{◌≡◌, ◌-◌};
ghost use Rattle.laws.specs.Finding.{first_of};
ghost use Rattle.reason.specs.ReasonNumbers.{finding_of};
ghost use Rattle.chars.specs.Characters.{capitals};
ghost use Rattle.chars.specs.Columns.{allowed_test, every_column};
ghost use Rattle.edits.specs.RuleNumbers.{rule_of};
ghost use Rattle.edits.specs.Tests.{rules_test, fields_test};

use crate::{Around, FurtherRule, Rule, own, with_context};
use chars::columns;
use chars::columns::Allowed;
use field::class;
use field::class::Field;
use reason::Edit;

// The rule of a number.
#[tactic(auto, unfolding(crate::specs::RuleNumbers::rule_list, crate::specs::RuleNumbers::rule_of))]
pub fn rule_of(number: u8) -> Rule
    ensures { result ≡ rule_of number }
{
    match number {
        0 => Rule::Nothing,
        1 => Rule::YearInTime,
        2 => Rule::QuarterInTime,
        3 => Rule::YearOfA,
        4 => Rule::PeriodOfA,
        5 => Rule::FeinNew,
        6 => Rule::FeinOfE,
        7 => Rule::DateInQuarter,
        8 => Rule::IdentityNew,
        9 => Rule::CountOfS,
        10 => Rule::WagesOfS,
        11 => Rule::FileCountOfS,
        12 => Rule::FileCountOfE,
        13 => Rule::FileWagesOfS,
        14 => Rule::FinalIfCurrent,
        15 => Rule::More(FurtherRule::YearHeld),
        16 => Rule::More(FurtherRule::QuarterOfE),
        17 => Rule::More(FurtherRule::ListRoom),
        18 => Rule::More(FurtherRule::AccountOfE),
        19 => Rule::More(FurtherRule::QuarterEnd),
        20 => Rule::More(FurtherRule::SecondOfS),
        _ => Rule::Nothing,
    }
}

// The rules of a field after its class test: its own, then those of the context.
fn rules_edit(around: &Around, line: &[u8], field: Field, rule: Rule) -> Edit
    ensures { finding_of result ≡ rules_test around.now (capitals line.now) field.class rule field.first field.last }
{
    own::own_edit(around.landmarks, around.code, line, field)?;
    with_context::context_edit(rule, around, line, field)
}

// Where to look for a broken column from: after the last one, where every column holds what it may;
// else at the first.
fn look_from(allowed: Allowed, line: &[u8], field: Field) -> u16
    ensures { every_column allowed (capitals line.now) field.first field.last ≡ first_of (allowed_test allowed (capitals line.now)) result (field.last - result) }
{
    if columns::all_hold(allowed, line, field.first, field.last) {
        return field.last;
    }
    chars::index_of(field.first)
}

// The first broken column of the first broken field. The rule beside a field in its list is that of
// its context; a field past the end of the rules has none. The rules are a list of their own, as the
// definitions have them: the fields are document 000's tables, the rules document 01's.
pub fn first_broken(around: &Around, line: &[u8], rows: &[Field], rules: &[Rule]) -> Edit
    ensures { finding_of result ≡ fields_test around.now (capitals line.now) rows.now rules.now }
{
    let mut found = Ok(());
    'fields: for (k, field) in rows.iter().enumerate() {
        found = class::lead_edit(line, *field);
        if found.is_err() {
            break 'fields;
        }
        let allowed = class::allowed_in(line, *field);
        for at in look_from(allowed, line, *field)..field.last {
            found = columns::column_edit(allowed, line, at + 1);
            if found.is_err() {
                break 'fields;
            }
        }
        let rule = rules.get(k).copied().unwrap_or(Rule::Nothing);
        found = rules_edit(around, line, *field, rule);
        if found.is_err() {
            break 'fields;
        }
    }
    found
}
