// The table of identity numbers: one number an entry.
ghost use Rattle.std.specs.Prelude.{◌≡◌, take};
ghost use Rattle.tables.specs.Tables.{is_among};

use crate::any_of;

// Whether a number is among the first n.
pub fn has(ids: &[u32], n: usize, id: u32) -> bool
    ensures { result ≡ is_among id (take n ids.now) }
{
    any_of(ids, n, |entry| *entry == id)
}
