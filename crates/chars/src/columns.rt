// What the columns of a field hold.
#![tactic(auto, unfolding(crate::specs::Columns::column_test, crate::specs::Columns::every_column))]

ghost use Rattle.std.specs.Prelude.{◌≡◌, ℕ, Bool, false, ◌-◌, ◌<◌};
ghost use Rattle.reason.specs.ReasonNumbers.{finding_of, number_of};
ghost use Rattle.chars.specs.Characters.{capitals};
ghost use Rattle.chars.specs.Columns.{allowed_test, every_column, unless, is_fine};
ghost use Rattle.chars.specs.Sweep.{Tells, all_pass};

use crate::{capital, char_at, index_of, is_blank, is_digit, is_of_name, is_permitted};
use reason::{Broken, Edit, Reason};

// What a column may hold.
#[derive(Clone, Copy)]
pub enum Allowed {
    Anything,
    Permitted,
    Blanks,
    Digits,
    OfNames,
}

// A column is broken unless the rule passes.
pub fn unless(passes: bool, column: u16, reason: Reason) -> Edit
    ensures { finding_of result ≡ unless passes column (number_of reason) }
{
    if passes {
        Ok(())
    } else {
        Err(Broken(column, reason))
    }
}

// What one column says; column 0 is read as column 1.
pub fn column_edit(allowed: Allowed, line: &[u8], column: u16) -> Edit
    ensures { finding_of result ≡ allowed_test allowed (capitals line.now) (column - 1) }
{
    let at = index_of(column);
    let c = char_at(line, usize::from(at));
    match allowed {
        Allowed::Anything => Ok(()),
        Allowed::Permitted => unless(is_permitted(c), at + 1, Reason::BadCharacter),
        Allowed::Blanks => unless(is_blank(c), at + 1, Reason::NotBlank),
        Allowed::Digits => unless(is_digit(c), at + 1, Reason::NotDigit),
        Allowed::OfNames => unless(is_of_name(c), at + 1, Reason::BadNameCharacter),
    }
}

// Whether the characters of the places from..to all pass a test, which no place behind the line's
// end passes. Every one is looked at, so that a compiler can compare several at once.
fn all_pass<F: Fn(u8) -> bool>(line: &[u8], from: usize, to: usize, test: F) -> bool
    requires { F.IsAlwaysCallable test }
    ensures { (tells : ℕ → Bool) → Tells (F.post test) tells → tells 0 ≡ false → result ≡ all_pass tells line.now from (to - from) }
{
    let Some(span) = line.get(from..to) else {
        return to <= from;
    };
    let mut good = true;
    for c in span {
        good &= test(*c);
    }
    good
}

// Whether every column of first to last holds what it may.
pub fn all_hold(allowed: Allowed, line: &[u8], first: u16, last: u16) -> bool
    ensures { result ≡ is_fine (every_column allowed (capitals line.now) first last) }
{
    let from = usize::from(index_of(first));
    let to = usize::from(last);
    match allowed {
        Allowed::Anything => true,
        Allowed::Permitted => all_pass(line, from, to, is_permitted),
        Allowed::Blanks => all_pass(line, from, to, is_blank),
        Allowed::Digits => all_pass(line, from, to, is_digit),
        Allowed::OfNames => all_pass(line, from, to, |c| is_of_name(capital(c))),
    }
}

// The first column of first to last that does not hold what it may. Most often there is none, so
// that is asked first.
pub fn every_column(allowed: Allowed, line: &[u8], first: u16, last: u16) -> Edit
    ensures { finding_of result ≡ every_column allowed (capitals line.now) first last }
{
    if all_hold(allowed, line, first, last) {
        return Ok(());
    }
    for at in index_of(first)..last {
        column_edit(allowed, line, at + 1)?;
    }
    Ok(())
}
