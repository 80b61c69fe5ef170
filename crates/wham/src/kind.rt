// The six records, by their letters.
#![tactic(auto, unfolding(crate::specs::Kinds::kind_of))]

ghost use Rattle.std.specs.Prelude.{◌≡◌};
ghost use Rattle.wham.specs.Kinds.{kind_of, is_known, with_state, processor_of_e, account_of_s, difference_of_t, landmarks_of};

use edits::{FurtherLandmarks, Landmarks, NONE_FURTHER};
use wham_fields::{
    ACCOUNT_OF_S, AMENDED_OF_T, PAYMENTS_OF_T, PROCESSOR_OF_E, STATE_OF_A, STATE_OF_E,
};

#[derive(Clone, Copy, PartialEq, Eq)]
pub enum Kind {
    // A
    Transmitter,
    // E
    Employer,
    // S
    Employee,
    // R
    Deposit,
    // T
    Total,
    // F
    Final,
    // Another letter. It is a variant and no `None`, since the place table has a row for it.
    Unknown,
}

// The record that a letter names; the letter is a capital.
pub fn kind_of(letter: u8) -> Kind
    ensures { result ≡ kind_of letter }
{
    match letter {
        b'A' => Kind::Transmitter,
        b'E' => Kind::Employer,
        b'S' => Kind::Employee,
        b'R' => Kind::Deposit,
        b'T' => Kind::Total,
        b'F' => Kind::Final,
        _ => Kind::Unknown,
    }
}

// Whether a letter names a record.
pub fn is_known(kind: Kind) -> bool
    ensures { result ≡ is_known kind }
{
    kind != Kind::Unknown
}

// A record whose state is in this column, and no other column is looked at but these.
fn with_state(state: u16, further: FurtherLandmarks) -> Landmarks
    ensures { result ≡ with_state state further }
{
    Landmarks {
        year_first: 0,
        year_last: 0,
        period_first: 0,
        period_last: 0,
        state,
        final_flag: 0,
        further,
    }
}

// E: whoever has the licence.
fn processor_of_e() -> FurtherLandmarks
    ensures { result ≡ processor_of_e }
{
    FurtherLandmarks {
        licensed_first: PROCESSOR_OF_E.first,
        licensed_last: PROCESSOR_OF_E.last,
        ..NONE_FURTHER
    }
}

// S: the account in two parts, of six columns and of five.
fn account_of_s() -> FurtherLandmarks
    ensures { result ≡ account_of_s }
{
    FurtherLandmarks {
        head_last: ACCOUNT_OF_S.first + 5,
        tail_first: ACCOUNT_OF_S.first + 6,
        tail_last: ACCOUNT_OF_S.last,
        ..NONE_FURTHER
    }
}

// T: what is due is the amended total less the payments.
fn difference_of_t() -> FurtherLandmarks
    ensures { result ≡ difference_of_t }
{
    FurtherLandmarks {
        whole_first: AMENDED_OF_T.first,
        whole_last: AMENDED_OF_T.last,
        part_first: PAYMENTS_OF_T.first,
        part_last: PAYMENTS_OF_T.last,
        ..NONE_FURTHER
    }
}

// The columns of a record that the rules of its other fields look at.
pub fn landmarks_of(kind: Kind) -> Landmarks
    ensures { result ≡ landmarks_of kind }
{
    match kind {
        Kind::Transmitter => with_state(STATE_OF_A.first, NONE_FURTHER),
        Kind::Employer => with_state(STATE_OF_E.first, processor_of_e()),
        Kind::Employee => with_state(0, account_of_s()),
        Kind::Total => with_state(0, difference_of_t()),
        _ => with_state(0, NONE_FURTHER),
    }
}
