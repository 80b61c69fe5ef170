// What comes before the fields of a record, in every format: characters, letter, place.
ghost use Rattle.std.specs.Prelude.{◌≡◌, not, leb};
ghost use Rattle.reason.specs.ReasonNumbers.{finding_of};
ghost use Rattle.chars.specs.Characters.{capitals};
ghost use Rattle.chars.specs.Columns.{unless};
ghost use Rattle.shape.specs.Head.{head_test};
ghost use Rattle.shape.specs.Limits.{most_employees};

use chars::columns;
use chars::columns::Allowed;
use reason::{Broken, Edit, Reason};

// The first broken edit of a record before its fields: it has so many columns, its letter is known
// or not, and `placed` is what its place and its count find.
pub fn head_edit(length: u16, known: bool, placed: Edit, line: &[u8]) -> Edit
    ensures { finding_of result ≡ head_test length known (finding_of placed) (capitals line.now) }
{
    columns::every_column(Allowed::Permitted, line, 1, length)?;
    if !known {
        return Err(Broken(1, Reason::UnknownLetter));
    }
    placed
}

// No record more where the file has 100,000 of its letter.
pub fn one_more(count: u64) -> Edit
    ensures { finding_of result ≡ unless (not (leb most_employees count)) 1 61 }
{
    if count < crate::MOST_EMPLOYEES {
        return Ok(());
    }
    Err(Broken(1, Reason::TooManyS))
}
