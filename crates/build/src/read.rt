// The values of a record's fields, read.
ghost use Rattle.std.specs.Prelude.{◌≡◌, length, get_or};
ghost use Rattle.chars.specs.Characters.{capitals};
ghost use Rattle.edits.specs.FieldRow.{first_in, last_in, no_row};
ghost use Rattle.reason.specs.ReasonNumbers.{reading_of};
ghost use Rattle.number.specs.Numbers.{number_in};
ghost use Rattle.pfml.specs.Edits.{rows_for};
ghost use Rattle.pfml.specs.Kinds.{kind_of};
ghost use Rattle.build.specs.Values.{text_in};

use crate::rows;
use reason::Broken;

// Field k, counted from 0, of the record that a letter names, as a number.
pub fn field_number(letter: u8, k: usize, line: &[u8]) -> Result<u64, Broken>
    ensures { reading_of result ≡ number_in (capitals line.now) (first_in (get_or (rows_for (kind_of letter)) k no_row)) (last_in (get_or (rows_for (kind_of letter)) k no_row)) }
{
    let row = rows::row_of(letter, k);
    number::read_number(line, row.first, row.last)
}

// How many characters the text in the columns first to last has, without trailing blanks.
fn text_length(line: &[u8], first: u16, last: u16) -> usize
    ensures { result ≡ length (text_in (capitals line.now) first last) }
{
    let start = usize::from(chars::index_of(first));
    let end = usize::from(last).min(line.len());
    for at in (start..end).rev() {
        if !chars::is_blank(chars::char_at(line, at)) {
            return at + 1 - start;
        }
    }
    0
}

// The same of field k: its text are so many characters from its first column on.
pub fn field_text(letter: u8, k: usize, line: &[u8]) -> usize
    ensures { result ≡ length (text_in (capitals line.now) (first_in (get_or (rows_for (kind_of letter)) k no_row)) (last_in (get_or (rows_for (kind_of letter)) k no_row))) }
{
    let row = rows::row_of(letter, k);
    text_length(line, row.first, row.last)
}

// Its first column; 0 where there is no such field.
pub fn field_first(letter: u8, k: usize) -> u16
    ensures { result ≡ first_in (get_or (rows_for (kind_of letter)) k no_row) }
{
    rows::row_of(letter, k).first
}
