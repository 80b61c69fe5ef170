// 72: when a state is unfit.
#![tactic(auto, unfolding(crate::specs::Unfit::file_unfit, crate::specs::Unfit::is_left, crate::specs::Unfit::open_unfit, crate::specs::Unfit::unfit))]

ghost use Rattle.std.specs.Prelude.{◌≤◌, ◌≡◌, ◌&&◌};
ghost use Rattle.edits.specs.Formats.{is_of_opening};
ghost use Rattle.shape.specs.Limits.{most_employees};
ghost use Rattle.record.specs.ShapeOf.{shape_of};
ghost use Rattle.tables.specs.Room.{entries_used};
ghost use Rattle.state.specs.Walks.{reading, walk_of, standing_of};
ghost use Rattle.state.specs.Unfit.{file_unfit, open_unfit, is_open, is_left, both_unfit, standing_unfit, unfit};

use crate::{Stage, State};
use calendar::Quarter;
use edits::format::Format;
use edits::{Open, Opening, Phase, Totals, format};

const MOST_FEIN: u64 = 999999999;

// How many entries of a list of this length are used.
pub fn entries_used(list: usize) -> u64
    ensures { result ≡ entries_used (record { ids = 0; list = list }) }
{
    (list as u64).min(65536)
}

fn file_unfit(format: Format, list: usize, all: Totals, lines: u32) -> bool
    ensures { result ≡ file_unfit (shape_of format) (entries_used (record { ids = 0; list = list })) all lines }
{
    entries_used(list) < all.employers
        || shape::MOST_EMPLOYEES < all.count
        || all.count * record::most_cents(format) < all.sum
        || record::most_lines(format) < lines
}

fn open_unfit(format: Format, all: Totals, e: Open) -> bool
    requires { all.count ≤ most_employees }
    ensures { result ≡ open_unfit (shape_of format) all e }
{
    all.count < e.count
        || e.count * record::most_cents(format) < e.sum
        || all.employers == 0
        || MOST_FEIN < e.fein
}

// Whether an E is open.
pub fn is_open(stage: Stage) -> bool
    ensures { result ≡ is_open (standing_of stage) }
{
    matches!(stage, Stage::Reading(Phase::EOpen))
}

// Whether a number is one of an opening that was refused.
pub fn is_of_opening(number: u8) -> bool
    ensures { result ≡ is_of_opening number }
{
    matches!(number, 70 | 73)
}

// Whether a number is one that a refusal leaves in the state of a walk of this format.
fn is_left(format: Format, refusal: u8) -> bool
    ensures { result ≡ is_left format refusal }
{
    if refusal == 70 {
        return true;
    }
    if format::is_known(format) {
        return record::is_left(format, refusal);
    }
    refusal == 73
}

fn phase_unfit(phase: Phase, held: Opening, filed: Quarter) -> bool
    ensures { result ≡ both_unfit phase held filed }
{
    !format::may_open(held) || record::quarter_unfit(phase, held, filed)
}

fn stage_unfit(stage: Stage, held: Opening, filed: Quarter) -> bool
    ensures { result ≡ standing_unfit (standing_of stage) held filed }
{
    match stage {
        Stage::Reading(phase) => phase_unfit(phase, held, filed),
        Stage::Accepted => phase_unfit(Phase::AfterF, held, filed),
        Stage::Refused(refusal) => !is_left(held.format, u8::from(refusal.reason)),
    }
}

// 72 for a call that is lent tables of these lengths.
pub fn is_unfit(st: State, ids: usize, list: usize) -> bool
    ensures { result ≡ unfit (record { ids = ids; list = list }) (walk_of st) }
{
    let format = st.held.format;
    let open = is_open(st.stage);
    file_unfit(format, list, st.all, st.lines)
        || open && open_unfit(format, st.all, st.open)
        || record::unfit_more(format, ids, st.used, open, st.all, st.open)
        || stage_unfit(st.stage, st.held, st.filed)
}
