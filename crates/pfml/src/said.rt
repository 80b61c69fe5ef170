// What a record says to the walk, and what it asks of the lent tables.
ghost use Rattle.std.specs.Prelude.{◌≡◌};
ghost use Rattle.chars.specs.Characters.{capitals};
ghost use Rattle.shape.specs.Shape.{fein_asked, id_asked};
ghost use Rattle.pfml.specs.Says.{is_set, said_by};

use crate::kind::Kind;
use calendar::Quarter;
use edits::rows;
use field::class::Field;
use pfml_fields::{
    AMENDED_OF_E, CEASE_DATE_OF_E, FEIN_OF_E, FINAL_OF_E, IDENTITY_OF_S, NO_WAGES_OF_E,
    PERIOD_OF_A, WAGES_OF_S, YEAR_OF_A,
};
use shape::{EmployeeOn, EmployerOn, Said};

fn is_set(line: &[u8], field: Field) -> bool
    ensures { result ≡ is_set (capitals line.now) field }
{
    rows::value_at(line, field) == 1
}

fn employer_on(line: &[u8]) -> Said
    ensures { result ≡ said_by Kind.Employer (capitals line.now) }
{
    Said::OfE(EmployerOn {
        fein: rows::value_at(line, FEIN_OF_E),
        once: true,
        follow: is_set(line, NO_WAGES_OF_E),
        amended: rows::value_at(line, AMENDED_OF_E),
        final_return: rows::value_at(line, FINAL_OF_E),
        cease_date: rows::value_at(line, CEASE_DATE_OF_E),
        account_head: 0,
        account_tail: 0,
        files: None,
    })
}

fn quarter_on(line: &[u8]) -> Said
    ensures { result ≡ said_by Kind.Transmitter (capitals line.now) }
{
    Said::OfA(Quarter {
        year: rows::value_at(line, YEAR_OF_A),
        month: rows::value_at(line, PERIOD_OF_A),
    })
}

fn employee_on(line: &[u8]) -> Said
    ensures { result ≡ said_by Kind.Employee (capitals line.now) }
{
    Said::OfS(EmployeeOn {
        id: rows::value_at(line, IDENTITY_OF_S),
        wages: rows::value_at(line, WAGES_OF_S),
        second: 0,
    })
}

// What a record of this kind says to the walk.
pub fn said_by(kind: Kind, line: &[u8]) -> Said
    ensures { result ≡ said_by kind (capitals line.now) }
{
    match kind {
        Kind::Transmitter => quarter_on(line),
        Kind::Employer => employer_on(line),
        Kind::Employee => employee_on(line),
        Kind::Total => Said::OfT,
        Kind::Final => Said::OfF,
        Kind::Unknown => Said::OfNone,
    }
}

// What a record asks of the employer list: an E whether its FEIN stands on an earlier E, another
// record nothing.
pub fn fein_asked(kind: Kind, line: &[u8]) -> Option<u64>
    ensures { result ≡ fein_asked (said_by kind (capitals line.now)) }
{
    match kind {
        Kind::Employer => Some(rows::value_at(line, FEIN_OF_E)),
        _ => None,
    }
}

// What a record asks of the id table: an S whether its identity number stands under the open E,
// another record nothing.
pub fn id_asked(kind: Kind, line: &[u8]) -> Option<u64>
    ensures { result ≡ id_asked (said_by kind (capitals line.now)) }
{
    match kind {
        Kind::Employee => Some(rows::value_at(line, IDENTITY_OF_S)),
        _ => None,
    }
}
