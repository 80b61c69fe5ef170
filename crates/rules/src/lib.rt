// The rules of fields that read as numbers. A value that fails its rule is refused at the field's
// first column.
#![tactic(auto, unfolding(crate::specs::Rules::year_in, crate::specs::Rules::period_in, crate::specs::Rules::flag_in, crate::specs::Rules::fein_in, crate::specs::Rules::identity_in, crate::specs::Rules::begins_with69, crate::specs::Rules::is_nine_zeros, crate::specs::Rules::may_be_filed, crate::specs::Rules::are_issued))]

ghost use Rattle.std.specs.Prelude.{◌≡◌};
ghost use Rattle.chars.specs.Characters.{capitals};
ghost use Rattle.reason.specs.ReasonNumbers.{reading_of};
ghost use Rattle.rules.specs.Rules.{year_in, period_in, flag_in, begins_with69, is_nine_zeros, fein_in, are_issued, fourth_and_fifth, may_be_filed, identity_in};

use reason::{Broken, Reason};

// A year: 30, then 38 where it is too early.
pub fn read_year(line: &[u8], first: u16, last: u16) -> Result<u64, Broken>
    ensures { reading_of result ≡ year_in (capitals line.now) first last }
{
    let year = number::read_number(line, first, last)?;
    if calendar::is_filing_year(year) {
        return Ok(year);
    }
    Err(Broken(first, Reason::YearTooEarly))
}

// A period: 40 where it is no month that ends a quarter.
pub fn read_period(line: &[u8], first: u16, last: u16) -> Result<u64, Broken>
    ensures { reading_of result ≡ period_in (capitals line.now) first last }
{
    let Ok(month) = number::read_number(line, first, last) else {
        return Err(Broken(first, Reason::BadPeriod));
    };
    if calendar::is_quarter_month(month) {
        return Ok(month);
    }
    Err(Broken(first, Reason::BadPeriod))
}

// A flag: 47 where it is neither 0 nor 1.
pub fn read_flag(line: &[u8], column: u16) -> Result<u64, Broken>
    ensures { reading_of result ≡ flag_in (capitals line.now) column }
{
    let Ok(flag) = number::read_number(line, column, column) else {
        return Err(Broken(column, Reason::BadFlag));
    };
    if flag <= 1 {
        return Ok(flag);
    }
    Err(Broken(column, Reason::BadFlag))
}

fn begins_with_69(fein: u64) -> bool
    ensures { result ≡ begins_with69 fein }
{
    fein / 10000000 == 69
}

fn is_nine_zeros(fein: u64) -> bool
    ensures { result ≡ is_nine_zeros fein }
{
    fein == 0
}

// An employer's FEIN: 30, then 44 where it begins with 69, then 64 where it is nine zeros.
pub fn read_fein(line: &[u8], first: u16, last: u16) -> Result<u64, Broken>
    ensures { reading_of result ≡ fein_in (capitals line.now) first last }
{
    let fein = number::read_number(line, first, last)?;
    if begins_with_69(fein) {
        return Err(Broken(first, Reason::FeinPrefix));
    }
    if is_nine_zeros(fein) {
        return Err(Broken(first, Reason::FeinZero));
    }
    Ok(fein)
}

// Whether the IRS issues ITINs with these fourth and fifth digits.
fn are_issued(digits: u64) -> bool
    ensures { result ≡ are_issued digits }
{
    matches!(digits, 50..=65 | 70..=88 | 90..=92 | 94..=99)
}

fn fourth_and_fifth(id: u64) -> u64
    ensures { result ≡ fourth_and_fifth id }
{
    id / 10000 % 100
}

// Whether an identity number may be filed. One that begins with 9 is an ITIN.
pub fn may_be_filed(id: u64) -> bool
    ensures { result ≡ may_be_filed id }
{
    if id / 100000000 == 9 {
        are_issued(fourth_and_fifth(id))
    } else {
        id / 1000000 != 666
    }
}

// An identity number: 30, then 52 where it may not be filed.
pub fn read_identity(line: &[u8], first: u16, last: u16) -> Result<u64, Broken>
    ensures { reading_of result ≡ identity_in (capitals line.now) first last }
{
    let id = number::read_number(line, first, last)?;
    if may_be_filed(id) {
        return Ok(id);
    }
    Err(Broken(first, Reason::IdentityPrefix))
}
