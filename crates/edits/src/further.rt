// The rules of classes and of the context that PFML has not.
#![tactic(auto, unfolding(crate::specs::FurtherTests::difference_test, crate::specs::FurtherTests::licence_test))]

ghost use Rattle.std.specs.Prelude.{◌≡◌};
ghost use Rattle.reason.specs.ReasonNumbers.{finding_of};
ghost use Rattle.chars.specs.Characters.{capitals};
ghost use Rattle.edits.specs.Edit.{first_broken};
ghost use Rattle.edits.specs.Further.{is_negative, digits_from, is_difference, is_first_e, quarter_of_e, is_account, further_edits};
ghost use Rattle.edits.specs.FurtherTests.{licence_test, difference_test, further_rest};

use crate::{Around, Context, FurtherLandmarks, FurtherRule, Phase, format};
use calendar::Quarter;
use chars::columns;
use chars::columns::Allowed;
use field::class::Further;
use number::letters;
use reason::{Edit, Reason};

// ---- own rules, after the class test
// Required where the record names who is licensed, else optional.
fn licence_edit(marks: FurtherLandmarks, line: &[u8], first: u16, last: u16) -> Edit
    ensures { finding_of result ≡ licence_test marks (capitals line.now) first last }
{
    if number::value_in(line, marks.licensed_first, marks.licensed_last) == 0 {
        return text::optional(line, first, last);
    }
    text::required(line, first, last)
}

// A hyphen in front of other columns is a minus sign.
fn is_negative(line: &[u8], first: u16, last: u16) -> bool
    ensures { result ≡ is_negative (capitals line.now) first last }
{
    first < last && chars::char_at(line, chars::index_of(first) as usize) == b'-'
}

// The column from which on digits are asked.
fn digits_from(line: &[u8], first: u16, last: u16) -> u16
    ensures { result ≡ digits_from (capitals line.now) first last }
{
    if is_negative(line, first, last) {
        return first + 1;
    }
    first
}

fn is_difference(negative: bool, amount: u64, whole: u64, part: u64) -> bool
    ensures { result ≡ is_difference negative amount whole part }
{
    if negative {
        return whole <= part && part - whole == amount;
    }
    part <= whole && whole - part == amount
}

// The amount is the whole less the part, where the whole reads as a number.
fn difference_edit(marks: FurtherLandmarks, line: &[u8], first: u16, last: u16) -> Edit
    ensures { finding_of result ≡ difference_test marks (capitals line.now) first last }
{
    let from = digits_from(line, first, last);
    columns::every_column(Allowed::Digits, line, from, last)?;
    let Ok(whole) = number::read_number(line, marks.whole_first, marks.whole_last) else {
        return Ok(());
    };
    let part = number::value_in(line, marks.part_first, marks.part_last);
    let amount = number::value_in(line, from, last);
    let negative = is_negative(line, first, last);
    columns::unless(
        is_difference(negative, amount, whole, part),
        first,
        Reason::WagesNotOfS,
    )
}

pub fn own_edit(marks: FurtherLandmarks, class: Further, line: &[u8], first: u16, last: u16) -> Edit
    ensures { finding_of result ≡ further_rest marks class (capitals line.now) first last }
{
    match class {
        Further::SocialSecurity => columns::unless(
            number::value_in(line, first, last) / 100000000 != 9,
            first,
            Reason::IdentityPrefix,
        ),
        Further::MaineCode => columns::unless(
            number::value_in(line, first, last) == 23,
            first,
            Reason::UnknownState,
        ),
        Further::Licence => licence_edit(marks, line, first, last),
        Further::Difference => difference_edit(marks, line, first, last),
    }
}

// ---- rules of the context
// The first E of the file is the one after A.
fn is_first_e(phase: Phase) -> bool
    ensures { result ≡ is_first_e phase }
{
    matches!(phase, Phase::AfterA)
}

fn quarter_of_e(here: &Context, month: u64, first: u16) -> Edit
    ensures { finding_of result ≡ first_broken (quarter_of_e here.now month first) }
{
    if is_first_e(here.phase) {
        let told = Quarter {
            year: here.filed.year,
            month,
        };
        let held = format::quarter_held(here.held);
        return columns::unless(
            !calendar::is_after(told, held),
            first,
            Reason::PeriodTooLate,
        );
    }
    columns::unless(month == here.filed.month, first, Reason::PeriodNotOfA)
}

fn is_account(here: &Context, marks: FurtherLandmarks, line: &[u8], first: u16) -> bool
    ensures { result ≡ is_account here.now marks (capitals line.now) first }
{
    letters::letters_in(line, first, marks.head_last) == here.open.account_head
        && letters::letters_in(line, marks.tail_first, marks.tail_last) == here.open.account_tail
}

// The edits of a rule in order; v is the field's value.
pub fn rule_edit(rule: FurtherRule, around: &Around, line: &[u8], first: u16, v: u64) -> Edit
    ensures { finding_of result ≡ first_broken (further_edits rule around.now.landmarks.further around.now.here (capitals line.now) first v) }
{
    let here = &around.here;
    match rule {
        FurtherRule::YearHeld => columns::unless(v <= here.held.year, first, Reason::YearTooLate),
        FurtherRule::QuarterOfE => quarter_of_e(here, v, first),
        FurtherRule::ListRoom => columns::unless(!here.list_full, first, Reason::EmployerListFull),
        FurtherRule::AccountOfE => columns::unless(
            is_account(here, around.landmarks.further, line, first),
            first,
            Reason::FeinNotOfE,
        ),
        FurtherRule::QuarterEnd => columns::unless(
            calendar::is_last_day(v, here.filed),
            first,
            Reason::DepositNotOfQuarter,
        ),
        FurtherRule::SecondOfS => columns::unless(
            v == here.open.second,
            first,
            Reason::WagesNotOfS,
        ),
    }
}
