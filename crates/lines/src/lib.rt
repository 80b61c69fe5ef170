// Cutting the first line off lent bytes, for records of any length.
#![tactic(auto, unfolding(crate::specs::Lines::is_end))]

ghost use Rattle.std.specs.Prelude.{◌≡◌, ◌≤◌, min, ltb, length, drop};
ghost use Rattle.lines.specs.Lines.{is_end, text_of, end_of, first_line};
ghost use Rattle.reason.specs.ReasonNumbers.{reading_of};
ghost use Rattle.lines.specs.Cutting.{cutting};

use reason::{Broken, Reason};

fn is_end(b: u8) -> bool
    ensures { result ≡ is_end b }
{
    matches!(b, b'\n' | b'\r')
}

// Whether the first line is shorter than n. Every one of n bytes is looked at, and what was found
// is kept as a number, so that a compiler can compare several at once; a truth value it takes
// apart, and compares byte by byte.
fn is_shorter(s: &[u8], n: usize) -> bool
    ensures { result ≡ ltb (length (text_of s.now)) n }
{
    let Some(front) = s.get(..n) else {
        return true;
    };
    let mut found: u8 = 0;
    for b in front {
        found |= u8::from(is_end(*b));
    }
    found != 0
}

// Where to look for the end of the first line: at the last of `most` bytes, where the line is as
// long; else from the first on.
fn look_from(s: &[u8], most: usize) -> usize
    ensures { (result ≤ most) × (result ≤ length (text_of s.now)) }
{
    let last = most.saturating_sub(1);
    if is_shorter(s, last) { 0 } else { last }
}

// The length of the first line, where that is at most `most`: it looks no further.
#[tactic(auto, using(crate::specs::Looking::as_far_as, crate::specs::Looking::goes_on, crate::specs::Looking::ends, crate::specs::Looking::text_short))]
pub fn line_length(s: &[u8], most: usize) -> usize
    ensures { result ≡ min (length (text_of s.now)) most }
{
    let end = most.min(s.len());
    for i in look_from(s, most)..end {
        if is_end(s[i]) {
            return i;
        }
    }
    end
}

// The length of the line end at a place, 0 where there is none.
#[tactic(auto, using(crate::specs::Looking::end_told))]
pub fn end_length(s: &[u8], at: usize) -> usize
    ensures { result ≡ length (end_of (drop at s.now)) }
{
    match s.get(at..) {
        Some([b'\r', b'\n', ..]) => 2,
        Some([b'\n' | b'\r', ..]) => 1,
        _ => 0,
    }
}

// How many bytes the first line and its end take; the line is to have n characters and an end. What
// stands after its end is ignored.
#[tactic(auto, using(crate::specs::Laws::end_short), unfolding(crate::specs::Cutting::cutting))]
pub fn cut_line(s: &[u8], n: u16) -> Result<usize, Broken>
    ensures { reading_of result ≡ cutting n (first_line s.now) }
{
    let wanted = usize::from(n);
    let length = line_length(s, wanted + 1);
    let beyond = n.saturating_add(1);
    if wanted < length {
        return Err(Broken(beyond, Reason::LineLength));
    }
    if length < wanted {
        return Err(Broken((length + 1) as u16, Reason::LineLength));
    }
    match end_length(s, length) {
        0 => Err(Broken(beyond, Reason::NoLineEnd)),
        end => Ok(length + end),
    }
}
