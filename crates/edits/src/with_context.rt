// The rules of a field that look at other records, at the quarter held or at the room that is left.
#![tactic(auto, unfolding(crate::specs::Edit::first_broken))]

ghost use Rattle.std.specs.Prelude.{◌≡◌};
ghost use Rattle.calendar.specs.Quarters.{must_be_final};
ghost use Rattle.reason.specs.ReasonNumbers.{finding_of};
ghost use Rattle.chars.specs.Characters.{capitals};
ghost use Rattle.edits.specs.Edit.{first_broken};
ghost use Rattle.edits.specs.WithContext.{quarter_on, quarter_in_time, fein_new, identity_new, count_of_s, date_in_quarter, final_if_current, rule_edits, with_context};

use crate::{Around, Landmarks, Rule, format, further, own};
use calendar::{Quarter, Timing};
use chars::columns;
use field::class::Field;
use reason::{Broken, Edit, Reason};

// The year and the period of the record.
fn quarter_on(landmarks: Landmarks, line: &[u8]) -> Quarter
    ensures { result ≡ quarter_on landmarks (capitals line.now) }
{
    Quarter {
        year: number::value_in(line, landmarks.year_first, landmarks.year_last),
        month: number::value_in(line, landmarks.period_first, landmarks.period_last),
    }
}

// The quarter of A: a closed one or the current one.
fn quarter_in_time(timing: Timing, first: u16) -> Edit
    ensures { finding_of result ≡ first_broken (quarter_in_time timing first) }
{
    match timing {
        Timing::Closed => Ok(()),
        Timing::Current => Ok(()),
        Timing::Later => Err(Broken(first, Reason::PeriodTooLate)),
    }
}

fn fein_new(seen: bool, full: bool, first: u16) -> Edit
    ensures { finding_of result ≡ first_broken (fein_new seen full first) }
{
    if seen {
        return Err(Broken(first, Reason::FeinRepeated));
    }
    columns::unless(!full, first, Reason::EmployerListFull)
}

fn identity_new(v: u64, seen: bool, full: bool, first: u16) -> Edit
    ensures { finding_of result ≡ first_broken (identity_new v seen full first) }
{
    if v == 0 {
        return Ok(());
    }
    if seen {
        return Err(Broken(first, Reason::IdentityRepeated));
    }
    columns::unless(!full, first, Reason::IdTableFull)
}

fn count_of_s(v: u64, count: u64, follow: bool, first: u16) -> Edit
    ensures { finding_of result ≡ first_broken (count_of_s v count follow first) }
{
    if v != count {
        return Err(Broken(first, Reason::CountNotOfS));
    }
    if count == 0 {
        return columns::unless(!follow, first, Reason::NoneUnderE);
    }
    Ok(())
}

// In a final return the cease date lies in A's quarter.
fn date_in_quarter(last_return: bool, v: u64, filed: Quarter, first: u16) -> Edit
    ensures { finding_of result ≡ first_broken (date_in_quarter last_return v filed first) }
{
    if last_return {
        return columns::unless(
            calendar::in_quarter(v, filed),
            first,
            Reason::DateOutsideQuarter,
        );
    }
    Ok(())
}

// Whether every E of a file must be a final return: in the current quarter. A file of a later one
// is refused at its A.
fn must_be_final(timing: Timing) -> bool
    ensures { result ≡ must_be_final timing }
{
    match timing {
        Timing::Closed => false,
        Timing::Current => true,
        Timing::Later => false,
    }
}

fn final_if_current(timing: Timing, v: u64, first: u16) -> Edit
    ensures { finding_of result ≡ first_broken (final_if_current timing v first) }
{
    if must_be_final(timing) {
        return columns::unless(v != 0, first, Reason::NotFinal);
    }
    Ok(())
}

// The edits of a rule in order; v is the field's value.
fn rule_edit(rule: Rule, around: &Around, line: &[u8], first: u16, v: u64) -> Edit
    ensures { finding_of result ≡ first_broken (rule_edits rule around.now.landmarks around.now.here around.now.seen (capitals line.now) first v) }
{
    let here = &around.here;
    let held = format::quarter_held(here.held);
    let filed = here.filed;
    let open = here.open;
    let all = here.all;
    match rule {
        Rule::Nothing => Ok(()),
        Rule::YearInTime => columns::unless(
            v <= calendar::current_quarter(held).year,
            first,
            Reason::YearTooLate,
        ),
        Rule::QuarterInTime => quarter_in_time(
            calendar::timing_of(held, quarter_on(around.landmarks, line)),
            first,
        ),
        Rule::YearOfA => columns::unless(v == filed.year, first, Reason::YearNotOfA),
        Rule::PeriodOfA => columns::unless(v == filed.month, first, Reason::PeriodNotOfA),
        Rule::FeinNew => fein_new(around.seen.fein, here.list_full, first),
        Rule::FeinOfE => columns::unless(v == open.fein, first, Reason::FeinNotOfE),
        Rule::DateInQuarter => date_in_quarter(
            own::is_final(around.landmarks, line),
            v,
            filed,
            first,
        ),
        Rule::IdentityNew => identity_new(v, around.seen.id, here.ids_full, first),
        Rule::CountOfS => count_of_s(v, open.count, open.follow, first),
        Rule::WagesOfS => columns::unless(v == open.sum, first, Reason::WagesNotOfS),
        Rule::FileCountOfS => columns::unless(v == all.count, first, Reason::FileCountNotOfS),
        Rule::FileCountOfE => columns::unless(v == all.employers, first, Reason::FileCountNotOfE),
        Rule::FileWagesOfS => columns::unless(v == all.sum, first, Reason::FileWagesNotOfS),
        Rule::FinalIfCurrent => final_if_current(calendar::timing_of(held, filed), v, first),
        Rule::More(rule) => further::rule_edit(rule, around, line, first, v),
    }
}

// A field held against its context. Most fields have no rule, and their value is not read.
pub fn context_edit(rule: Rule, around: &Around, line: &[u8], field: Field) -> Edit
    ensures { finding_of result ≡ first_broken (with_context rule around.now.landmarks around.now.here around.now.seen (capitals line.now) field.first field.last) }
{
    if let Rule::Nothing = rule {
        return Ok(());
    }
    let v = number::value_in(line, field.first, field.last);
    rule_edit(rule, around, line, field.first, v)
}
