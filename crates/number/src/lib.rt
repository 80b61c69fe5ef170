// A number read from a field, and written into one.
#![tactic(auto, using(crate::proofs::Steps::reading, crate::proofs::Steps::writing), unfolding(crate::specs::Numbers::put_number, crate::specs::Numbers::value_in))]

pub mod letters;

ghost use Rattle.std.specs.Prelude.{◌≡◌, min, length, set};
ghost use Rattle.chars.specs.Characters.{capitals};
ghost use Rattle.reason.specs.ReasonNumbers.{reading_of};
ghost use Rattle.number.specs.Numbers.{number_in, value_in, put_number};

use reason::{Broken, Reason};

// The lesser of two numbers.
pub fn least(a: u64, b: u64) -> u64
    ensures { result ≡ min a b }
{
    a.min(b)
}

// A byte as a number.
pub fn wide(c: u8) -> u64
    ensures { result ≡ c }
{
    u64::from(c)
}

// The number in columns first to last. A digit is read as it stands, since nothing becomes one in
// capitals; after the line's end there is none.
pub fn read_number(line: &[u8], first: u16, last: u16) -> Result<u64, Broken>
    ensures { reading_of result ≡ number_in (capitals line.now) first last }
{
    let from = chars::index_of(first);
    let width = last.saturating_sub(from);
    if width == 0 || 19 < width {
        return Err(Broken(first, Reason::NotDigit));
    }
    let end = places_before(line, last);
    let mut v: u64 = 0;
    for at in from..end {
        let c = line[at as usize];
        if !chars::is_digit(c) {
            return Err(Broken(at + 1, Reason::NotDigit));
        }
        v = v * 10 + (u64::from(c) - 48);
    }
    if end < last {
        return Err(Broken(from.max(end) + 1, Reason::NotDigit));
    }
    Ok(v)
}

// How many places of the line stand before the end of a field.
fn places_before(line: &[u8], last: u16) -> u16
    ensures { result ≡ min last (length line.now) }
{
    line.len().min(last as usize) as u16
}

// The number of a field, 0 where it reads as none.
pub fn value_in(line: &[u8], first: u16, last: u16) -> u64
    ensures { result ≡ value_in (capitals line.now) first last }
{
    read_number(line, first, last).unwrap_or(0)
}

// The last digits of the number into columns first to last, with zeros in front.
pub fn write_number(line: &mut [u8], first: u16, last: u16, v: u64)
    ensures { line.new ≡ put_number line.old first last v }
{
    let mut left = v;
    for at in (chars::index_of(first)..last).rev() {
        put(line, at, b'0' + (left % 10) as u8);
        left /= 10;
    }
}

// A character at a place of the line; after its end there is none to write.
fn put(line: &mut [u8], at: u16, c: u8)
    ensures { line.new ≡ set line.old at c }
{
    if (at as usize) < line.len() {
        line[at as usize] = c;
    }
}
