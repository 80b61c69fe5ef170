// The rules of a field that look at its own record alone, after its class test.
#![tactic(auto, unfolding(crate::specs::Tests::cease_test, crate::specs::Tests::third_quarter_test))]

ghost use Rattle.std.specs.Prelude.{◌≡◌};
ghost use Rattle.laws.specs.Finding.{finding_in};
ghost use Rattle.reason.specs.ReasonNumbers.{finding_of, reading_of};
ghost use Rattle.chars.specs.Characters.{capitals};
ghost use Rattle.edits.specs.Own.{is_final};
ghost use Rattle.edits.specs.Tests.{cease_test, third_quarter_test, own_rest};

use crate::{Landmarks, further};
use chars::columns;
use field::class::{Class, Field};
use reason::{Broken, Edit, Reason};
use text::address;

// What a reading says of the edits passed on the way to its value.
fn edit_in(n: Result<u64, Broken>) -> Edit
    ensures { finding_of result ≡ finding_in (reading_of n) }
{
    n?;
    Ok(())
}

// Whether the return is the final one.
pub fn is_final(landmarks: Landmarks, line: &[u8]) -> bool
    ensures { result ≡ is_final landmarks (capitals line.now) }
{
    number::value_in(line, landmarks.final_flag, landmarks.final_flag) != 0
}

fn cease_edit(landmarks: Landmarks, line: &[u8], first: u16, last: u16) -> Edit
    ensures { finding_of result ≡ cease_test landmarks (capitals line.now) first last }
{
    let date = number::read_number(line, first, last)?;
    if is_final(landmarks, line) {
        if date == 0 {
            return Err(Broken(first, Reason::DateMissing));
        }
        return columns::unless(calendar::is_date(date), first, Reason::NoDate);
    }
    columns::unless(date == 0, first, Reason::DateNotFinal)
}

fn third_quarter_edit(landmarks: Landmarks, line: &[u8], first: u16) -> Edit
    ensures { finding_of result ≡ third_quarter_test landmarks (capitals line.now) first }
{
    if number::value_in(line, landmarks.period_first, landmarks.period_last) == 9 {
        return edit_in(rules::read_flag(line, first));
    }
    Ok(())
}

// The own rules of a field, after its class test.
pub fn own_edit(landmarks: Landmarks, code: [u8; 4], line: &[u8], field: Field) -> Edit
    ensures { finding_of result ≡ own_rest landmarks code field.class (capitals line.now) field.first field.last }
{
    let Field { first, last, .. } = field;
    match field.class {
        Class::Ignored | Class::RecordLetter | Class::BlankSpace => Ok(()),
        Class::Numeric | Class::AccountNumber => Ok(()),
        Class::RequiredText | Class::OptionalText | Class::PersonName => Ok(()),
        Class::Flag => edit_in(rules::read_flag(line, first)),
        Class::ThirdQuarterFlag => third_quarter_edit(landmarks, line, first),
        Class::Period => edit_in(rules::read_period(line, first, last)),
        Class::EntityCode => text::entity_edit(code, line, first),
        Class::StateCode => address::state_edit(address::region_in(line, first), first),
        Class::ZipCode => address::zip_edit(address::region_in(line, landmarks.state), line, first),
        Class::ZipExtension => address::extension_edit(
            address::region_in(line, landmarks.state),
            line,
            first,
        ),
        Class::TaxYear => edit_in(rules::read_year(line, first, last)),
        Class::EmployerFein => edit_in(rules::read_fein(line, first, last)),
        Class::IdentityNumber => edit_in(rules::read_identity(line, first, last)),
        Class::CeaseDate => cease_edit(landmarks, line, first, last),
        Class::More(class) => further::own_edit(landmarks.further, class, line, first, last),
    }
}
