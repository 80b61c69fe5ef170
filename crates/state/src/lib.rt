// The state of a walk over a wage file, handed back and forth by value, and when it is unfit.
#![tactic(auto)]

pub mod fitness;

ghost use Rattle.std.specs.Prelude.{◌≡◌};
ghost use Rattle.reason.specs.ReasonNumbers.{notice_of};
ghost use Rattle.shape.specs.After.{no_quarter, none_open, no_totals};
ghost use Rattle.state.specs.Walks.{phase_of, no_opening, standing_of, walk_of, opened_walk, refused_walk};

use calendar::Quarter;
use edits::format::Format;
use edits::{Open, Opening, Phase, Totals};
use reason::Refusal;

// Where a walk stands: among the records of the file; at its accepted end; or refused, with the
// place and the reason.
#[derive(Clone, Copy, PartialEq, Eq)]
pub enum Stage {
    Reading(Phase),
    Accepted,
    Refused(Refusal),
}

#[derive(Clone, Copy)]
pub struct State {
    pub stage: Stage,
    // Lines read; a refused line is not counted.
    pub lines: u32,
    // What the walk was opened with, and A's quarter.
    pub held: Opening,
    pub filed: Quarter,
    pub open: Open,
    pub all: Totals,
    // Ids in use: so many entries of the id table are the open E's.
    pub used: usize,
}

// The phase that the next record meets; no record meets an accepted or a refused walk.
pub fn phase_of(stage: Stage) -> Phase
    ensures { result ≡ phase_of (standing_of stage) }
{
    match stage {
        Stage::Reading(phase) => phase,
        Stage::Accepted => Phase::AfterF,
        Stage::Refused(_) => Phase::BeforeA,
    }
}

// The quarter of A before A is read: zeros.
pub fn no_quarter() -> Quarter
    ensures { result ≡ no_quarter }
{
    Quarter { year: 0, month: 0 }
}

// What a walk that is not opened has in its place.
pub fn no_opening() -> Opening
    ensures { result ≡ no_opening }
{
    Opening {
        format: Format::Unknown,
        year: 0,
        month: 0,
    }
}

// The numbers of the open E when none is open: zeros.
pub fn none_open() -> Open
    ensures { result ≡ none_open }
{
    Open::default()
}

// The state of a walk that has read nothing.
pub fn opened(held: Opening) -> State
    ensures { walk_of result ≡ opened_walk held }
{
    State {
        stage: Stage::Reading(Phase::BeforeA),
        lines: 0,
        held,
        filed: no_quarter(),
        open: none_open(),
        all: Totals::default(),
        used: 0,
    }
}

// The state that a refusal leaves: the format, its place and reason, every other number zero.
pub fn refused(format: Format, refusal: Refusal) -> State
    ensures { walk_of result ≡ refused_walk format (notice_of refusal) }
{
    let held = Opening {
        format,
        ..no_opening()
    };
    State {
        stage: Stage::Refused(refusal),
        ..opened(held)
    }
}
