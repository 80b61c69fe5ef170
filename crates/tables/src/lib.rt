// The two tables that a caller lends: identity numbers, and the entries of employers. None of the
// functions asks anything of their length. They are two slices and no struct, since C lends them so.
#![tactic(auto)]

pub mod ids;
pub mod list;

ghost use Rattle.std.specs.Prelude.{◌≡◌, Bool, min, set, take};
ghost use Rattle.std.specs.Fn.{FnReturnsAt};
ghost use Rattle.std.specs.List.{list_any};
ghost use Rattle.tables.specs.Tables.{wiped};
ghost use Rattle.tables.specs.TableSteps.{Tells};

// An employer's entry: its FEIN, the number of S records and the sum of their wages in cents; then
// the flags of an amended and of a final return, 0 or 1, and the cease date as the number MMDDYYYY,
// 0 if none. It lies in memory as C lays it out, since callers in other languages lend such a list.
#[repr(C)]
#[derive(Clone, Copy, PartialEq, Eq, Default)]
pub struct Employer {
    pub fein: u64,
    pub count: u64,
    pub cents: u64,
    pub amended: u64,
    pub final_return: u64,
    pub cease_date: u64,
}

// The lesser of two lengths.
pub fn least(a: usize, b: usize) -> usize
    ensures { result ≡ min a b }
{
    a.min(b)
}

// The first n entries of a table at rest. `fill` would ask the caller that clones are copies.
pub fn zero_first<T: Copy>(table: &mut [T], n: usize, rest: T)
    ensures { table.new ≡ wiped rest n table.old }
{
    let end = n.min(table.len());
    for entry in &mut table[..end] {
        *entry = rest;
    }
}

// An entry at a place of a table; past its end nothing is written. Of what is written behind
// `get_mut` a proof knows no more than the table's length.
pub fn put<T: Copy>(table: &mut [T], at: usize, entry: T)
    ensures { table.new ≡ set table.old at entry }
{
    if at < table.len() {
        table[at] = entry;
    }
}

// Whether one of the first n entries of a table passes a test. Every one of them is looked at, so
// that a compiler can compare several at once, and no turn branches on what was found.
fn any_of<T, F: Fn(&T) -> bool>(table: &[T], n: usize, test: F) -> bool
    requires { F.IsAlwaysCallable test }
    ensures { (tells : T → Bool) → Tells (FnReturnsAt F.Fn test) tells → result ≡ list_any tells (take n table.now) }
{
    let mut found = false;
    for entry in &table[..n.min(table.len())] {
        found |= test(entry);
    }
    found
}
