// 72, the clauses that are this format's own.
ghost use Rattle.std.specs.Prelude.{◌≡◌};
ghost use Rattle.wham.specs.Fitness.{most_lines, is_above, second_unfit, no_quarter, quarter_unfit, is_from_to, is_left};

use calendar::Quarter;
use edits::{Open, Opening, Phase, Totals, format};
use wham_fields::Edition;

// The most cents that 12 digits of tax say.
pub const MOST_CENTS: u64 = 999999999999;

// The most R records of a file.
pub const MOST_OTHERS: u64 = 100000;

// The most lines that are read.
pub fn most_lines(edition: Edition) -> u32
    ensures { result ≡ most_lines edition }
{
    match edition {
        Edition::Of2024 => 331074,
    }
}

// Whether a sum exceeds what so many amounts can come to. From this count on no sum of 64 bits does.
fn is_above(count: u64, sum: u64) -> bool
    ensures { result ≡ is_above count sum }
{
    count < 18446745 && count * MOST_CENTS < sum
}

// Either second sum.
pub fn second_unfit(is_open: bool, all: Totals, e: Open) -> bool
    ensures { result ≡ second_unfit is_open all e }
{
    is_above(all.count, all.second) || is_open && is_above(e.count, e.second)
}

fn no_quarter(held: Opening, filed: Quarter) -> bool
    ensures { result ≡ no_quarter held filed }
{
    !calendar::is_quarter_month(filed.month)
        || calendar::is_after(filed, format::quarter_held(held))
}

// Once A is read its year is not after the last closed quarter's; once an E is read its quarter is not.
pub fn quarter_unfit(phase: Phase, held: Opening, filed: Quarter) -> bool
    ensures { result ≡ quarter_unfit phase held filed }
{
    match phase {
        Phase::BeforeA => false,
        Phase::AfterA => held.year < filed.year,
        Phase::EOpen | Phase::AfterT | Phase::AfterF => no_quarter(held, filed),
    }
}

// Whether a number is one that the refusal of an edit leaves in the state, in edition 2024.
fn is_left_2024(n: u8) -> bool
    ensures { result ≡ is_left Edition.Of2024 n }
{
    matches!(n, 1..=8 | 10..=20 | 30 | 32..=37 | 39..=43 | 46..=47 | 52 | 55..=61 | 63 | 91)
}

// The same in each edition.
pub fn is_left(edition: Edition, n: u8) -> bool
    ensures { result ≡ is_left edition n }
{
    match edition {
        Edition::Of2024 => is_left_2024(n),
    }
}
