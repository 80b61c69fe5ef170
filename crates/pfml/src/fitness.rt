// 72, the clauses that are PFML's own.
ghost use Rattle.std.specs.Prelude.{◌≡◌, not};
ghost use Rattle.calendar.specs.Quarters.{is_reportable};
ghost use Rattle.edits.specs.Formats.{quarter_held};
ghost use Rattle.pfml.specs.Fitness.{ids_unfit, quarter_unfit, is_left};

use calendar::Quarter;
use edits::{Opening, Phase, format};

// The most lines that are read.
pub const MOST_LINES: u32 = 231074;

// The most cents that 14 digits of wages say.
pub const MOST_CENTS: u64 = 99999999999999;

// The ids in use exceed the id table, while an E is open.
pub fn ids_unfit(ids: usize, used: usize, is_open: bool) -> bool
    ensures { result ≡ ids_unfit ids used is_open }
{
    is_open && ids < used
}

// Once A is read its quarter is a closed one or the current one.
pub fn quarter_unfit(phase: Phase, held: Opening, filed: Quarter) -> bool
    ensures { result ≡ quarter_unfit phase held filed }
{
    !matches!(phase, Phase::BeforeA) && !calendar::is_reportable(format::quarter_held(held), filed)
}

// Whether a number is one that the refusal of an edit leaves in the state.
pub fn is_left(number: u8) -> bool
    ensures { result ≡ is_left number }
{
    matches!(number, 1..=65)
}
