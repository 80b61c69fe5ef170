// The state of a walk as words that a caller lends, for callers in a language that has no `State`.
#![tactic(auto)]

ghost use Rattle.std.specs.Prelude.{◌≤◌, min, ◌≡◌, length, Some};
ghost use Rattle.reason.specs.ReasonNumbers.{notice_of};
ghost use Rattle.state.specs.Walks.{reading, refused, standing_of, walk_of};
ghost use Rattle.state_words.specs.Words.{word_count, standing_words, flag_word, words_of, put_words, HeldStanding, Held, line_in, column_in, refusal_in, standing_in, unfit_walk, open_told, totals_told, walk_told, walk_in, told_of};

use calendar::Quarter;
use edits::format::Format;
use edits::{Open, Opening, Phase, Totals};
use reason::{Reason, Refusal};
use state::{Stage, State};

// How many words a state is.
pub const WORDS: usize = 27;

fn phase_words(phase: Phase) -> [u64; 4]
    ensures { result ≡ standing_words (reading phase) }
{
    [phase as u64, 0, 0, 0]
}

fn refusal_words(refusal: Refusal) -> [u64; 4]
    ensures { (result ≡ standing_words (refused (notice_of refusal))) × HeldStanding (refused (notice_of refusal)) }
{
    [
        6,
        u64::from(u8::from(refusal.reason)),
        u64::from(refusal.line),
        u64::from(refusal.column),
    ]
}

fn stage_words(stage: Stage) -> [u64; 4]
    ensures { (result ≡ standing_words (standing_of stage)) × HeldStanding (standing_of stage) }
{
    match stage {
        Stage::Reading(phase) => phase_words(phase),
        Stage::Accepted => [5, 0, 0, 0],
        Stage::Refused(refusal) => refusal_words(refusal),
    }
}

// A flag is 1 or 0.
fn flag_word(flag: bool) -> u64
    ensures { result ≡ flag_word flag }
{
    u64::from(flag)
}

// The words of a state.
fn words_of(st: State) -> [u64; WORDS]
    ensures { (result ≡ words_of (walk_of st)) × Held (walk_of st) }
{
    let first = stage_words(st.stage);
    let open = st.open;
    let all = st.all;
    [
        first[0],
        first[1],
        first[2],
        first[3],
        u64::from(st.lines),
        st.held.year,
        st.held.month,
        st.filed.year,
        st.filed.month,
        open.fein,
        flag_word(open.follow),
        open.count,
        open.sum,
        all.count,
        all.employers,
        all.sum,
        st.used as u64,
        u64::from(st.held.format),
        open.second,
        open.others,
        open.nearest,
        flag_word(open.noted),
        open.account_head,
        open.account_tail,
        all.second,
        all.others,
        all.notes,
    ]
}

// The words of a state at the front of those that are lent, which tell that state again; where
// these are too few, nothing is written. A loop, since `copy_from_slice` would have callers in C
// bring memmove.
pub fn put_words(st: State, words: &mut [u64])
    ensures written { words.new ≡ put_words (walk_of st) words.old }
    ensures read_back { word_count ≤ length words.old → walk_in words.new ≡ walk_of st }
{
    if words.len() < WORDS {
        return;
    }
    let all = words_of(st);
    for i in 0..WORDS {
        words[i] = all[i];
    }
}

fn line_in(n: u64) -> u32
    ensures { result ≡ line_in n }
{
    n.min(u64::from(u32::MAX)) as u32
}

fn column_in(n: u64) -> u16
    ensures { result ≡ column_in n }
{
    n.min(u64::from(u16::MAX)) as u16
}

// A refusal whose number is none of the paper's tells nothing.
fn refusal_in(words: &[u64]) -> Option<Stage>
    requires { word_count ≤ length words.now }
    ensures { told_of result ≡ refusal_in words.now }
{
    let reason = Reason::try_from(words[1]).ok()?;
    Some(Stage::Refused(Refusal {
        line: line_in(words[2]),
        column: column_in(words[3]),
        reason,
    }))
}

fn stage_in(words: &[u64]) -> Option<Stage>
    requires { word_count ≤ length words.now }
    ensures { told_of result ≡ standing_in words.now }
{
    match words[0] {
        0 => Some(Stage::Reading(Phase::BeforeA)),
        1 => Some(Stage::Reading(Phase::AfterA)),
        2 => Some(Stage::Reading(Phase::EOpen)),
        3 => Some(Stage::Reading(Phase::AfterT)),
        4 => Some(Stage::Reading(Phase::AfterF)),
        5 => Some(Stage::Accepted),
        6 => refusal_in(words),
        _ => None,
    }
}

fn open_in(words: &[u64]) -> Open
    requires { word_count ≤ length words.now }
    ensures { result ≡ open_told words.now }
{
    Open {
        fein: words[9],
        follow: words[10] != 0,
        count: words[11],
        sum: words[12],
        second: words[18],
        others: words[19],
        nearest: words[20],
        noted: words[21] != 0,
        account_head: words[22],
        account_tail: words[23],
    }
}

fn totals_in(words: &[u64]) -> Totals
    requires { word_count ≤ length words.now }
    ensures { result ≡ totals_told words.now }
{
    Totals {
        count: words[13],
        employers: words[14],
        sum: words[15],
        second: words[24],
        others: words[25],
        notes: words[26],
    }
}

fn state_told(stage: Stage, words: &[u64]) -> State
    requires { word_count ≤ length words.now }
    ensures { walk_of result ≡ walk_told words.now (Some (standing_of stage)) }
{
    State {
        stage,
        lines: line_in(words[4]),
        held: Opening {
            format: Format::from(words[17]),
            year: words[5],
            month: words[6],
        },
        filed: Quarter {
            year: words[7],
            month: words[8],
        },
        open: open_in(words),
        all: totals_in(words),
        used: words[16] as usize,
    }
}

fn unfit_state() -> State
    ensures { walk_of result ≡ unfit_walk }
{
    state::refused(
        Format::Unknown,
        Refusal {
            line: 0,
            column: 0,
            reason: Reason::StateUnfit,
        },
    )
}

// The state that words tell. Where they tell none it is one to which every call answers 72.
pub fn state_in(words: &[u64]) -> State
    ensures { walk_of result ≡ walk_in words.now }
{
    if words.len() < WORDS {
        return unfit_state();
    }
    let Some(stage) = stage_in(words) else {
        return unfit_state();
    };
    state_told(stage, words)
}
