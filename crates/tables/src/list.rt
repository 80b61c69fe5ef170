// The employer list: an entry holds the six numbers of `Employer`.
ghost use Rattle.std.specs.Prelude.{◌≡◌, take, get_or};
ghost use Rattle.tables.specs.Tables.{is_among, no_employer, feins_of, closed};

use crate::{Employer, any_of};

// An entry at rest.
pub const AT_REST: Employer = Employer {
    fein: 0,
    count: 0,
    cents: 0,
    amended: 0,
    final_return: 0,
    cease_date: 0,
};

// An entry done: its count and its cents, and the other numbers kept.
pub fn closed_entry(entry: Employer, count: u64, cents: u64) -> Employer
    ensures { result ≡ closed entry count cents }
{
    Employer {
        count,
        cents,
        ..entry
    }
}

// The entry at a place; past the list's end, one at rest.
pub fn entry_at(list: &[Employer], at: usize) -> Employer
    ensures { result ≡ get_or list.now at no_employer }
{
    list.get(at).copied().unwrap_or(AT_REST)
}

// Whether a FEIN is among those of the first n entries.
pub fn has_fein(list: &[Employer], n: usize, fein: u64) -> bool
    ensures { result ≡ is_among fein (feins_of (take n list.now)) }
{
    any_of(list, n, |entry| entry.fein == fein)
}
