// Characters and columns of a line, and how they are read.
#![tactic(auto, unfolding(crate::specs::Characters::capital_of, crate::specs::Characters::is_blank, crate::specs::Characters::is_digit, crate::specs::Characters::is_letter, crate::specs::Characters::is_of_name, crate::specs::Characters::is_permitted))]

pub mod columns;

ghost use Rattle.std.specs.Prelude.{◌≡◌, ◌-◌, get_or};
ghost use Rattle.chars.specs.Characters.{is_permitted, capital_of, capitals, is_blank, is_digit, is_letter, is_of_name};

// Whether a character may stand in a file at all: hex 20 to 7E.
pub fn is_permitted(c: u8) -> bool
    ensures { result ≡ is_permitted c }
{
    matches!(c, 0x20..=0x7e)
}

// Whether it is a blank.
pub fn is_blank(c: u8) -> bool
    ensures { result ≡ is_blank c }
{
    c == b' '
}

// Whether it is one of 0 to 9.
pub fn is_digit(c: u8) -> bool
    ensures { result ≡ is_digit c }
{
    c.is_ascii_digit()
}

// Whether it is one of A to Z.
pub fn is_letter(c: u8) -> bool
    ensures { result ≡ is_letter c }
{
    c.is_ascii_uppercase()
}

// Whether a name may hold it.
pub fn is_of_name(c: u8) -> bool
    ensures { result ≡ is_of_name c }
{
    is_letter(c) || is_blank(c) || c == b'-' || c == b'\''
}

fn capital(c: u8) -> u8
    ensures { result ≡ capital_of c }
{
    c.to_ascii_uppercase()
}

// The character at a place of the line as it is read, 0 after its end.
#[tactic(auto, using(crate::specs::CharacterLaws::capital_at))]
pub fn char_at(line: &[u8], at: usize) -> u8
    ensures { result ≡ get_or (capitals line.now) at 0 }
{
    capital(line.get(at).copied().unwrap_or(0))
}

// The place of a column; column 0 is read as column 1.
pub fn index_of(column: u16) -> u16
    ensures { result ≡ column - 1 }
{
    column.saturating_sub(1)
}
