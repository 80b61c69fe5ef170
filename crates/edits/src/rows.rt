// A field by its row in a list of fields.
ghost use Rattle.std.specs.Prelude.{◌≡◌, get_or};
ghost use Rattle.chars.specs.Characters.{capitals};
ghost use Rattle.edits.specs.FieldRow.{no_row, value_at, put_at, put_text_at, fill_at};

use field::class::Field;
use field::row;
use text::put;

// Past a list of rows there is no field.
pub const NO_ROW: Field = row!(Ignored, 0, 0);

// A row of a list, a field of no columns past its end.
pub fn row_at(rows: &[Field], k: usize) -> Field
    ensures { result ≡ get_or rows.now k no_row }
{
    rows.get(k).copied().unwrap_or(NO_ROW)
}

// The number in a field, 0 where it reads as none.
pub fn value_at(line: &[u8], field: Field) -> u64
    ensures { result ≡ value_at (capitals line.now) field }
{
    number::value_in(line, field.first, field.last)
}

// A number put into a field, with zeros in front.
pub fn write_at(line: &mut [u8], field: Field, v: u64)
    ensures { line.new ≡ put_at line.old field v }
{
    number::write_number(line, field.first, field.last, v);
}

// A text put into a field, from its first column on.
pub fn write_text_at(line: &mut [u8], field: Field, t: &[u8])
    ensures { line.new ≡ put_text_at line.old field t.now }
{
    put::put_text(line, field.first, t);
}

// One character in every column of a field. What would stand past the line's end is left out.
pub fn fill_at(line: &mut [u8], field: Field, c: u8)
    ensures { line.new ≡ fill_at line.old field c }
{
    let from = chars::index_of(field.first) as usize;
    let end = field.last as usize;
    for at in from..end.min(line.len()) {
        line[at] = c;
    }
}
