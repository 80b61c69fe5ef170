// Fields of text.
#![tactic(auto, using(crate::specs::TextLaws::begun_first, crate::specs::TextLaws::blank_of_none, crate::specs::TextLaws::blank_or_indented, chars::specs::CharacterLaws::capitals_drop), unfolding(crate::specs::Text::all_blank, crate::specs::Text::is_asked, crate::specs::Text::is_indented, crate::specs::Text::has_pattern))]

pub mod address;
pub mod put;

ghost use Rattle.std.specs.Prelude.{◌≡◌, ◌||◌, not, ◌-◌, drop};
ghost use Rattle.reason.specs.ReasonNumbers.{finding_of, number_of};
ghost use Rattle.chars.specs.Characters.{capitals};
ghost use Rattle.chars.specs.Columns.{unless};
ghost use Rattle.text.specs.Text.{all_blank, is_indented, text_test, required_text, optional_text, is_asked, reads_as, has_pattern, entity_test};

use chars::columns;
use chars::columns::Allowed;
use reason::{Broken, Edit, Reason};

// Whether every column of a field is blank.
pub fn all_blank(line: &[u8], first: u16, last: u16) -> bool
    ensures { result ≡ all_blank (capitals line.now) first last }
{
    columns::every_column(Allowed::Blanks, line, first, last).is_ok()
}

// Whether there is text from the first column on: then the field is neither all blank nor indented,
// and no other column need be looked at.
fn is_begun(line: &[u8], first: u16, last: u16) -> bool
    ensures { result ≡ not (all_blank (capitals line.now) first last || is_indented (capitals line.now) first) }
{
    let at = chars::index_of(first);
    at < last && !chars::is_blank(chars::char_at(line, at as usize))
}

// Text, with what an all blank field gives.
fn text(line: &[u8], first: u16, last: u16, missing: Edit) -> Edit
    ensures { finding_of result ≡ text_test (finding_of missing) (capitals line.now) first last }
{
    if is_begun(line, first, last) {
        return Ok(());
    }
    if all_blank(line, first, last) {
        return missing;
    }
    Err(Broken(first, Reason::TextIndented))
}

// A text that must be there: 32 where it is all blank, 33 where it begins with a blank.
pub fn required(line: &[u8], first: u16, last: u16) -> Edit
    ensures { finding_of result ≡ required_text (capitals line.now) first last }
{
    text(line, first, last, Err(Broken(first, Reason::TextMissing)))
}

// A text that may be left out: 33 where it begins with a blank and is not all blank.
pub fn optional(line: &[u8], first: u16, last: u16) -> Edit
    ensures { finding_of result ≡ optional_text (capitals line.now) first last }
{
    text(line, first, last, Ok(()))
}

// Whether a pattern's symbol asks for the character.
fn is_asked(symbol: u8, c: u8) -> bool
    ensures { result ≡ is_asked symbol c }
{
    match symbol {
        b'd' => chars::is_digit(c),
        b'l' => chars::is_letter(c),
        _ => c == symbol,
    }
}

// The line from a column on; column 0 is read as column 1.
fn from_column(line: &[u8], column: u16) -> &[u8]
    ensures { result.now ≡ drop (column - 1) line.now }
{
    line.get(chars::index_of(column) as usize..).unwrap_or(&[])
}

// Whether characters read as a pattern.
fn reads_as(text: &[u8], pattern: &[u8]) -> bool
    ensures { result ≡ reads_as (capitals text.now) pattern.now }
{
    pattern
        .iter()
        .enumerate()
        .all(|(k, symbol)| is_asked(*symbol, chars::char_at(text, k)))
}

// Whether the field that starts in a column reads as a pattern.
pub fn has_pattern(line: &[u8], first: u16, pattern: &[u8]) -> bool
    ensures { result ≡ has_pattern (capitals line.now) first pattern.now }
{
    reads_as(from_column(line, first), pattern)
}

// A field that is to read as a pattern.
pub fn pattern_edit(pattern: &[u8], line: &[u8], first: u16, reason: Reason) -> Edit
    ensures { finding_of result ≡ unless (has_pattern (capitals line.now) first pattern.now) first (number_of reason) }
{
    columns::unless(has_pattern(line, first, pattern), first, reason)
}

// The entity code of a format, a fixed text that is compared after folding to capitals.
pub fn entity_edit(code: [u8; 4], line: &[u8], first: u16) -> Edit
    ensures { finding_of result ≡ entity_test code (capitals line.now) first }
{
    pattern_edit(&code, line, first, Reason::NotEntityCode)
}
