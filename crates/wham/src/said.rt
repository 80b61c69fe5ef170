// What a record says to the walk, and what it asks of the lent tables.
ghost use Rattle.std.specs.Prelude.{◌≡◌};
ghost use Rattle.chars.specs.Characters.{capitals};
ghost use Rattle.shape.specs.Shape.{fein_asked, id_asked};
ghost use Rattle.wham.specs.Says.{said_by};

use crate::kind::Kind;
use calendar::Quarter;
use edits::rows;
use number::letters;
use shape::{EmployeeOn, EmployerOn, Note, Said};
use wham_fields::{
    ACCOUNT_OF_E, CORRECT_OF_S, FEIN_OF_E, FOLLOW_OF_E, ORIGINAL_OF_S, PERIOD_OF_E, YEAR_OF_A,
    YEAR_OF_E,
};

// E: the account is held in two parts, of six columns and of five.
fn employer_on(line: &[u8]) -> Said
    ensures { result ≡ said_by Kind.Employer (capitals line.now) }
{
    Said::OfE(EmployerOn {
        fein: rows::value_at(line, FEIN_OF_E),
        once: false,
        follow: rows::value_at(line, FOLLOW_OF_E) == 1,
        amended: 0,
        final_return: 0,
        cease_date: 0,
        account_head: letters::letters_in(line, ACCOUNT_OF_E.first, ACCOUNT_OF_E.first + 5),
        account_tail: letters::letters_in(line, ACCOUNT_OF_E.first + 6, ACCOUNT_OF_E.last),
        files: Some(Quarter {
            year: rows::value_at(line, YEAR_OF_E),
            month: rows::value_at(line, PERIOD_OF_E),
        }),
    })
}

// A: its year; the month is that of the first E.
fn year_on(line: &[u8]) -> Said
    ensures { result ≡ said_by Kind.Transmitter (capitals line.now) }
{
    Said::OfA(Quarter {
        year: rows::value_at(line, YEAR_OF_A),
        month: 0,
    })
}

// S: no identity number is compared with another, so none is told.
fn employee_on(line: &[u8]) -> Said
    ensures { result ≡ said_by Kind.Employee (capitals line.now) }
{
    Said::OfS(EmployeeOn {
        id: 0,
        wages: rows::value_at(line, CORRECT_OF_S),
        second: rows::value_at(line, ORIGINAL_OF_S),
    })
}

// What a record of this kind says to the walk.
pub fn said_by(kind: Kind, line: &[u8]) -> Said
    ensures { result ≡ said_by kind (capitals line.now) }
{
    match kind {
        Kind::Transmitter => year_on(line),
        Kind::Employer => employer_on(line),
        Kind::Employee => employee_on(line),
        Kind::Deposit => Said::OfNote(Note::Deposit),
        Kind::Total => Said::OfT,
        Kind::Final => Said::OfF,
        Kind::Unknown => Said::OfNone,
    }
}

// No record asks anything of the employer list: a FEIN may stand on several E records.
pub fn fein_asked(kind: Kind, line: &[u8]) -> Option<u64>
    ensures { result ≡ fein_asked (said_by kind (capitals line.now)) }
{
    None
}

// Of the id table an S record asks for zero, which never stands there.
pub fn id_asked(kind: Kind, line: &[u8]) -> Option<u64>
    ensures { result ≡ id_asked (said_by kind (capitals line.now)) }
{
    match kind {
        Kind::Employee => Some(0),
        _ => None,
    }
}
