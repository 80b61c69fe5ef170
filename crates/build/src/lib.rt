// A, E and S records built from unpadded values into a lent slice.
//
// `values` has one entry for each field of the record, in the order of its table: of a number the
// number, of a text how many characters of `texts` it takes, where the texts stand one after the
// other; the entries of the letter, the entity code and blank space are not looked at. An entry
// past the end is 0, and a text ends where `texts` ends; what is left over of either is not looked
// at.
#![tactic(auto)]

pub mod form;
pub mod read;
mod rows;
mod value;

ghost use Rattle.std.specs.Prelude.{◌≡◌};
ghost use Rattle.reason.specs.ReasonNumbers.{notice, notice_of, number_of};
ghost use Rattle.write.specs.Writing.{written_by};
ghost use Rattle.build.specs.Building.{building};

use reason::{Broken, Reason, Refusal};
use rows::Given;
use text::put;
use write::Wrote;

// How many bytes the slice has to have.
const SIZE: usize = pfml_fields::RECORD as usize;

// A refusal has the column of what is broken, and no line: the record is in no file yet.
fn refusal_of(broken: Broken) -> Refusal
    ensures { notice_of result ≡ notice (number_of broken.1) 0 broken.0 }
{
    let Broken(column, reason) = broken;
    Refusal {
        line: 0,
        column,
        reason,
    }
}

// The record that a letter names.
fn build(letter: u8, values: &[u64], texts: &[u8], out: &mut [u8]) -> Wrote
    ensures { written_by result out.new ≡ building letter values.now texts.now out.old }
{
    if out.len() != SIZE {
        return Err(refusal_of(Broken(0, Reason::BuildLength)));
    }
    let given = Given {
        letter,
        values,
        texts,
    };
    let mut line = [0; SIZE];
    given.put_fields(&mut line);
    given.first_broken(&line).map_err(refusal_of)?;
    put::put_text(out, 1, &line);
    Ok(())
}

// A: the transmitter.
pub fn build_a(values: &[u64], texts: &[u8], out: &mut [u8]) -> Wrote
    ensures { written_by result out.new ≡ building 65 values.now texts.now out.old }
{
    build(b'A', values, texts, out)
}

// E: an employer.
pub fn build_e(values: &[u64], texts: &[u8], out: &mut [u8]) -> Wrote
    ensures { written_by result out.new ≡ building 69 values.now texts.now out.old }
{
    build(b'E', values, texts, out)
}

// S: an employee.
pub fn build_s(values: &[u64], texts: &[u8], out: &mut [u8]) -> Wrote
    ensures { written_by result out.new ≡ building 83 values.now texts.now out.old }
{
    build(b'S', values, texts, out)
}
