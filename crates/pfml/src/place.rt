// The place of a record: which record may stand where.
ghost use Rattle.std.specs.Prelude.{◌≡◌};
ghost use Rattle.reason.specs.ReasonNumbers.{finding_of};
ghost use Rattle.edits.specs.Edit.{first_broken};
ghost use Rattle.pfml.specs.Place.{place_edits, count_edit};
ghost use Rattle.pfml.specs.PlaceTables.{before_a, after_a, under_e, after_t, after_f};

use crate::kind::Kind;
use edits::Phase;
use reason::{Broken, Edit, Reason};
use shape::head;

fn before_a(kind: Kind) -> Edit
    ensures { finding_of result ≡ before_a kind }
{
    match kind {
        Kind::Transmitter => Ok(()),
        _ => Err(Broken(1, Reason::BeforeA)),
    }
}

fn after_a(kind: Kind) -> Edit
    ensures { finding_of result ≡ after_a kind }
{
    match kind {
        Kind::Transmitter => Err(Broken(1, Reason::SecondA)),
        Kind::Employee => Err(Broken(1, Reason::SWithoutE)),
        Kind::Total => Err(Broken(1, Reason::TWithoutE)),
        Kind::Final => Err(Broken(1, Reason::FWithoutE)),
        Kind::Employer | Kind::Unknown => Ok(()),
    }
}

fn under_e(follow: bool, kind: Kind) -> Edit
    ensures { finding_of result ≡ under_e follow kind }
{
    match kind {
        Kind::Transmitter => Err(Broken(1, Reason::SecondA)),
        Kind::Employer => Err(Broken(1, Reason::EWhileEOpen)),
        Kind::Employee => under_saying(follow),
        Kind::Final => Err(Broken(1, Reason::FWhileEOpen)),
        Kind::Total | Kind::Unknown => Ok(()),
    }
}

fn after_t(kind: Kind) -> Edit
    ensures { finding_of result ≡ after_t kind }
{
    match kind {
        Kind::Transmitter => Err(Broken(1, Reason::SecondA)),
        Kind::Employee => Err(Broken(1, Reason::SWithoutE)),
        Kind::Total => Err(Broken(1, Reason::SecondT)),
        Kind::Employer | Kind::Final | Kind::Unknown => Ok(()),
    }
}

fn after_f(kind: Kind) -> Edit
    ensures { finding_of result ≡ after_f kind }
{
    match kind {
        Kind::Transmitter => Err(Broken(1, Reason::SecondA)),
        Kind::Employer | Kind::Employee | Kind::Total => Err(Broken(1, Reason::BehindF)),
        Kind::Final => Err(Broken(1, Reason::SecondF)),
        Kind::Unknown => Ok(()),
    }
}

// An S record under an E that says whether any follows.
fn under_saying(follow: bool) -> Edit
    ensures { finding_of result ≡ under_e follow Kind.Employee }
{
    if follow {
        return Ok(());
    }
    Err(Broken(1, Reason::SUnderZeroE))
}

// The place rules; `follow`: the open E says that S records follow.
#[tactic(auto, using(crate::specs::PlaceTables::place_parts))]
pub fn place_edit(phase: Phase, follow: bool, kind: Kind) -> Edit
    ensures { finding_of result ≡ first_broken (place_edits phase follow kind) }
{
    match phase {
        Phase::BeforeA => before_a(kind),
        Phase::AfterA => after_a(kind),
        Phase::EOpen => under_e(follow, kind),
        Phase::AfterT => after_t(kind),
        Phase::AfterF => after_f(kind),
    }
}

// No S record beyond the 100,000th.
pub fn count_edit(kind: Kind, count: u64) -> Edit
    ensures { finding_of result ≡ (count_edit kind count).finds }
{
    match kind {
        Kind::Employee => head::one_more(count),
        _ => Ok(()),
    }
}
