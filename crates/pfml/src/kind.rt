// The five records, by their letters.
#![tactic(auto, unfolding(crate::specs::Kinds::kind_of))]

ghost use Rattle.std.specs.Prelude.{◌≡◌};
ghost use Rattle.pfml.specs.Kinds.{kind_of, is_known, place_in_order, no_landmarks, landmarks_of};

use edits::{Landmarks, NONE_FURTHER};
use pfml_fields::{
    FINAL_OF_E, PERIOD_OF_A, PERIOD_OF_E, STATE_OF_A, STATE_OF_E, YEAR_OF_A, YEAR_OF_E,
};

#[derive(Clone, Copy, PartialEq, Eq)]
pub enum Kind {
    // A
    Transmitter,
    // E
    Employer,
    // S
    Employee,
    // T
    Total,
    // F
    Final,
    // Another letter. It is a variant and no `None`, since the place table has a row for it.
    Unknown,
}

// The record that a letter names; the letter is a capital.
pub fn kind_of(letter: u8) -> Kind
    ensures { result ≡ kind_of letter }
{
    match letter {
        b'A' => Kind::Transmitter,
        b'E' => Kind::Employer,
        b'S' => Kind::Employee,
        b'T' => Kind::Total,
        b'F' => Kind::Final,
        _ => Kind::Unknown,
    }
}

// Whether a letter names a record.
pub fn is_known(kind: Kind) -> bool
    ensures { result ≡ is_known kind }
{
    kind != Kind::Unknown
}

// The record's place in the order A, E, S, T, F, from 0.
pub fn order_of(kind: Kind) -> usize
    ensures { result ≡ place_in_order kind }
{
    kind as usize
}

fn no_landmarks() -> Landmarks
    ensures { result ≡ no_landmarks }
{
    Landmarks {
        year_first: 0,
        year_last: 0,
        period_first: 0,
        period_last: 0,
        state: 0,
        final_flag: 0,
        further: NONE_FURTHER,
    }
}

// The columns of a record that the rules of its other fields look at.
pub fn landmarks_of(kind: Kind) -> Landmarks
    ensures { result ≡ landmarks_of kind }
{
    match kind {
        Kind::Transmitter => Landmarks {
            year_first: YEAR_OF_A.first,
            year_last: YEAR_OF_A.last,
            period_first: PERIOD_OF_A.first,
            period_last: PERIOD_OF_A.last,
            state: STATE_OF_A.first,
            ..no_landmarks()
        },
        Kind::Employer => Landmarks {
            year_first: YEAR_OF_E.first,
            year_last: YEAR_OF_E.last,
            period_first: PERIOD_OF_E.first,
            period_last: PERIOD_OF_E.last,
            state: STATE_OF_E.first,
            final_flag: FINAL_OF_E.first,
            ..no_landmarks()
        },
        _ => no_landmarks(),
    }
}
