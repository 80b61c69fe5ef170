// A field of a record that is built: what its value takes of the texts, whether it fits, how it is
// put into the field's columns, and the edits of the field.
#![tactic(auto, unfolding(laws::specs::Spelling::bytes))]

ghost use Rattle.std.specs.Prelude.{◌≡◌, ◌^◌, min, length, ltb, take};
ghost use Rattle.laws.specs.Spelling.{bytes};
ghost use Rattle.reason.specs.ReasonNumbers.{finding_of};
ghost use Rattle.chars.specs.Characters.{capitals};
ghost use Rattle.chars.specs.Columns.{width_of};
ghost use Rattle.text.specs.Put.{put_text};
ghost use Rattle.edits.specs.Edit.{first_broken};
ghost use Rattle.edits.specs.FieldRow.{class_in, first_in, last_in};
ghost use Rattle.edits.specs.Tests.{Wide};
ghost use Rattle.write.specs.Records.{put as put_part};
ghost use Rattle.build.specs.Values.{taken_by, form_in, filled, value_by};
ghost use Rattle.build.specs.Building.{part_of, fits_in, filled_edits};

use crate::form;
use crate::form::{Form, NO_ACCOUNT};
use chars::columns;
use chars::columns::Allowed;
use edits::{Landmarks, own};
use field::class;
use field::class::Field;
use reason::{Edit, Reason};
use text::put;

// A field with what it is given: the record's letter, the field's row, its entry of the values, and
// the texts from its own on.
#[derive(Clone, Copy)]
pub struct GivenField<'a> {
    pub letter: u8,
    pub row: Field,
    pub entry: u64,
    pub texts: &'a [u8],
}

// How many columns a field has.
pub fn width_of(first: u16, last: u16) -> u16
    ensures { result ≡ width_of first last }
{
    last.saturating_sub(chars::index_of(first))
}

// Whether a number has at most so many digits: as many are taken off it, and nothing is left.
fn has_room(v: u64, width: u16) -> bool
    ensures { result ≡ ltb v (10 ^ width) }
{
    let mut left = v;
    for _ in 0..width {
        left /= 10;
    }
    left == 0
}

// As many of the text's first characters as the entry says and the columns have room for.
fn put_words(line: &mut [u8], first: u16, last: u16, entry: u64, text: &[u8])
    ensures { line.new ≡ put_text line.old first (take (width_of first last) (take entry text.now)) }
{
    let width = usize::from(width_of(first, last));
    let n = text.len().min(entry as usize).min(width);
    put::put_text(line, first, &text[..n]);
}

impl GivenField<'_> {
    fn form(&self) -> Form
        ensures { result ≡ form_in self.now.row }
    {
        form::form_of(self.row.class)
    }

    // How many of the characters that are left of the texts it takes.
    pub fn taken(&self) -> usize
        ensures { result ≡ min (taken_by (form_in self.now.row) self.now.entry) (length self.now.texts.now) }
    {
        match self.form() {
            Form::Words => self.texts.len().min(self.entry as usize),
            _ => 0,
        }
    }

    // Whether its value fits its columns.
    pub fn fits(&self) -> bool
        ensures { result ≡ fits_in (width_of (first_in self.now.row) (last_in self.now.row)) (value_by (form_in self.now.row) self.now.letter self.now.entry self.now.texts.now) }
    {
        let width = width_of(self.row.first, self.row.last);
        match self.form() {
            Form::Amount => has_room(self.entry, width),
            Form::Account => self.entry == NO_ACCOUNT || has_room(self.entry, width),
            Form::Words => self.taken() <= usize::from(width),
            Form::Letter => 1 <= width,
            Form::Code => 4 <= width,
            Form::Blank => true,
        }
    }

    // Its value into its columns, which are blank.
    pub fn put(&self, line: &mut [u8])
        ensures { line.new ≡ put_part (part_of (filled self.now.letter self.now.row self.now.entry self.now.texts.now)) line.old }
    {
        let Field { first, last, .. } = self.row;
        match self.form() {
            Form::Account if self.entry == NO_ACCOUNT => {}
            Form::Amount | Form::Account => number::write_number(line, first, last, self.entry),
            Form::Words => put_words(line, first, last, self.entry, self.texts),
            Form::Letter => put_words(line, first, last, 1, &[self.letter]),
            Form::Code => put_words(line, first, last, 4, &pfml::ENTITY),
            Form::Blank => {}
        }
    }

    // Its edits with its value: too long, a bad character, its own.
    pub(crate) fn edit(&self, landmarks: Landmarks, line: &[u8]) -> Edit
        requires { Wide (class_in self.now.row) (first_in self.now.row) (last_in self.now.row) }
        ensures { finding_of result ≡ first_broken (filled_edits landmarks (capitals line.now) (filled self.now.letter self.now.row self.now.entry self.now.texts.now)) }
    {
        let Field { first, last, .. } = self.row;
        columns::unless(self.fits(), first, Reason::ValueTooLong)?;
        columns::every_column(Allowed::Permitted, line, first, last)?;
        class::class_edit(line, self.row)?;
        own::own_edit(landmarks, pfml::ENTITY, line, self.row)
    }
}
