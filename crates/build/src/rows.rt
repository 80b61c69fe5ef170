// The fields of a record, row by row: their values put into a line, and the first of their edits
// that the line breaks.
#![tactic(auto)]

ghost use Rattle.std.specs.Prelude.{map, ◌≡◌, length, get_or, drop};
ghost use Rattle.reason.specs.ReasonNumbers.{finding_of};
ghost use Rattle.chars.specs.Characters.{capitals};
ghost use Rattle.edits.specs.FieldRow.{no_row};
ghost use Rattle.edits.specs.Edit.{first_broken};
ghost use Rattle.pfml.specs.Edits.{rows_for};
ghost use Rattle.pfml.specs.Kinds.{kind_of, landmarks_of};
ghost use Rattle.text.specs.Put.{blanks};
ghost use Rattle.write.specs.Records.{put_all};
ghost use Rattle.build.specs.Values.{fill_record};
ghost use Rattle.build.specs.Building.{part_of, edits_of_all};

use crate::value::GivenField;
use edits::rows;
use field::class::Field;
use pfml::kind;
use reason::Edit;
use text::put;

// What a record is built from: the letter that names it, its values and its texts.
#[derive(Clone, Copy)]
pub struct Given<'a> {
    pub letter: u8,
    pub values: &'a [u64],
    pub texts: &'a [u8],
}

// How many fields the record has that a letter names.
pub fn count(letter: u8) -> usize
    ensures { result ≡ length (rows_for (kind_of letter)) }
{
    let kind = kind::order_of(kind::kind_of(letter));
    let from = pfml_fields::first_field(kind);
    pfml_fields::first_field(kind + 1) - from
}

// The row of its field k, counted from 0; past the last, a field of no columns.
pub fn row_of(letter: u8, k: usize) -> Field
    ensures { result ≡ get_or (rows_for (kind_of letter)) k no_row }
{
    if k < count(letter) {
        let kind = kind::order_of(kind::kind_of(letter));
        return rows::row_at(pfml_fields::all_rows(), pfml_fields::first_field(kind) + k);
    }
    rows::NO_ROW
}

impl<'a> Given<'a> {
    // Field k, where the texts before place `at` are taken. An entry past the end of the values is
    // 0, and past the end of the texts there is none.
    fn field(&self, k: usize, at: usize) -> GivenField<'a>
        ensures letter { result.letter ≡ self.now.letter }
        ensures row { result.row ≡ get_or (rows_for (kind_of self.now.letter)) k no_row }
        ensures entry { result.entry ≡ get_or self.now.values.now k 0 }
        ensures texts { result.texts.now ≡ drop at self.now.texts.now }
    {
        GivenField {
            letter: self.letter,
            row: row_of(self.letter, k),
            entry: self.values.get(k).copied().unwrap_or(0),
            texts: self.texts.get(at..).unwrap_or(&[]),
        }
    }

    // All fields in order, in a line that is blank before, and the line in capitals.
    pub fn put_fields(&self, line: &mut [u8])
        ensures { line.new ≡ capitals (put_all (map part_of (fill_record self.now.letter self.now.values.now self.now.texts.now)) (blanks (length line.old))) }
    {
        put::blank_line(line);
        let mut at = 0;
        for k in 0..count(self.letter) {
            let field = self.field(k, at);
            field.put(line);
            at += field.taken();
        }
        put::in_capitals(line)
    }

    // The first broken edit of the fields.
    pub fn first_broken(&self, line: &[u8]) -> Edit
        ensures { finding_of result ≡ first_broken (edits_of_all (landmarks_of (kind_of self.now.letter)) (capitals line.now) (fill_record self.now.letter self.now.values.now self.now.texts.now)) }
    {
        let landmarks = kind::landmarks_of(kind::kind_of(self.letter));
        let mut at = 0;
        for k in 0..count(self.letter) {
            let field = self.field(k, at);
            field.edit(landmarks, line)?;
            at += field.taken();
        }
        Ok(())
    }
}
