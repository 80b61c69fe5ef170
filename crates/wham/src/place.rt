// The place of a record: which record may stand where.
ghost use Rattle.std.specs.Prelude.{◌≡◌};
ghost use Rattle.reason.specs.ReasonNumbers.{finding_of};
ghost use Rattle.edits.specs.Edit.{first_broken};
ghost use Rattle.wham.specs.Place.{place_edits, count_edit};
ghost use Rattle.wham.specs.PlaceTables.{before_a, after_a, under_one, under_zero, under_e, after_t, after_f};

use crate::kind::Kind;
use edits::{Phase, Totals};
use reason::{Broken, Edit, Reason};
use shape::head;
use wham_fields::Edition;

fn before_a(kind: Kind) -> Edit
    ensures { finding_of result ≡ before_a kind }
{
    match kind {
        Kind::Transmitter => Ok(()),
        _ => Err(Broken(1, Reason::BeforeA)),
    }
}

fn after_a(kind: Kind) -> Edit
    ensures { finding_of result ≡ after_a kind }
{
    match kind {
        Kind::Transmitter => Err(Broken(1, Reason::SecondA)),
        Kind::Employee | Kind::Deposit => Err(Broken(1, Reason::SWithoutE)),
        Kind::Total => Err(Broken(1, Reason::TWithoutE)),
        Kind::Final => Err(Broken(1, Reason::FWithoutE)),
        Kind::Employer | Kind::Unknown => Ok(()),
    }
}

fn after_t(kind: Kind) -> Edit
    ensures { finding_of result ≡ after_t kind }
{
    match kind {
        Kind::Transmitter => Err(Broken(1, Reason::SecondA)),
        Kind::Employee | Kind::Deposit => Err(Broken(1, Reason::SWithoutE)),
        Kind::Total => Err(Broken(1, Reason::SecondT)),
        Kind::Employer | Kind::Final | Kind::Unknown => Ok(()),
    }
}

fn after_f(kind: Kind) -> Edit
    ensures { finding_of result ≡ after_f kind }
{
    match kind {
        Kind::Transmitter => Err(Broken(1, Reason::SecondA)),
        Kind::Final => Err(Broken(1, Reason::SecondF)),
        Kind::Unknown => Ok(()),
        _ => Err(Broken(1, Reason::BehindF)),
    }
}

// Under an E that says that S records follow.
fn under_one(kind: Kind) -> Edit
    ensures { finding_of result ≡ under_one kind }
{
    match kind {
        Kind::Transmitter => Err(Broken(1, Reason::SecondA)),
        Kind::Employer => Err(Broken(1, Reason::EWhileEOpen)),
        Kind::Final => Err(Broken(1, Reason::FWhileEOpen)),
        _ => Ok(()),
    }
}

// Under an E that says that none follows: edition 2024 asks for no T.
fn under_zero(kind: Kind) -> Edit
    ensures { finding_of result ≡ under_zero kind }
{
    match kind {
        Kind::Transmitter => Err(Broken(1, Reason::SecondA)),
        Kind::Employee => Err(Broken(1, Reason::SUnderZeroE)),
        _ => Ok(()),
    }
}

fn under_e(edition: Edition, follow: bool, kind: Kind) -> Edit
    ensures { finding_of result ≡ under_e edition follow kind }
{
    if follow {
        return under_one(kind);
    }
    match edition {
        Edition::Of2024 => under_zero(kind),
    }
}

// The place rules; `follow`: the open E says that S records follow.
#[tactic(auto, using(crate::specs::PlaceTables::place_parts))]
pub fn place_edit(edition: Edition, phase: Phase, follow: bool, kind: Kind) -> Edit
    ensures { finding_of result ≡ first_broken (place_edits edition phase follow kind) }
{
    match phase {
        Phase::BeforeA => before_a(kind),
        Phase::AfterA => after_a(kind),
        Phase::EOpen => under_e(edition, follow, kind),
        Phase::AfterT => after_t(kind),
        Phase::AfterF => after_f(kind),
    }
}

// No S record beyond the 100,000th, and no R record.
pub fn count_edit(kind: Kind, all: Totals) -> Edit
    ensures { finding_of result ≡ (count_edit kind all.count all.others).finds }
{
    match kind {
        Kind::Employee => head::one_more(all.count),
        Kind::Deposit => head::one_more(all.others),
        _ => Ok(()),
    }
}
