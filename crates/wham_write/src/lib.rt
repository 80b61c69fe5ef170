// The T and the F record of the amended withholding file that a walk accepts next, written into a
// lent slice.
#![tactic(auto, unfolding(crate::specs::Records::final_record, crate::specs::Records::total_record, laws::specs::Spelling::bytes, write::specs::Records::put_all))]

ghost use Rattle.std.specs.Prelude.{◌≡◌, length};
ghost use Rattle.state.specs.Walks.{walk_of, standing_of};
ghost use Rattle.write.specs.Records.{put_all};
ghost use Rattle.write.specs.Writing.{written_by};
ghost use Rattle.wham_write.specs.Records.{amended_total, due_parts, total_record};
ghost use Rattle.wham_write.specs.Writing.{total_next, is_ended, final_next, too_large, total_writing, final_writing};

use edits::{Open, format, rows};
use state::{Stage, State, fitness};
use text::put;
use wham_fields::{
    AMENDED_OF_T, CODE_OF_F, CODE_OF_T, COUNT_OF_F, COUNT_OF_T, DUE_OF_T, EMPLOYERS_OF_F, Edition,
    LETTER_OF_F, LETTER_OF_T, ORIGINAL_OF_T, PAYMENTS_OF_T, TOTAL_OF_F,
};
use write::{FinalRecord, Wrote};

// How many characters a record of such a file has.
const SIZE: usize = wham_fields::RECORD as usize;

// A number that is too large for the 11 columns of the payments, and for the 14 of the other
// amounts of T.
const TOO_LARGE_FOR_PAYMENTS: u64 = 100000000000;

const TOO_LARGE_FOR_T: u64 = 100000000000000;

// Its F record.
const FINAL: FinalRecord = FinalRecord {
    size: SIZE,
    entity: wham::ENTITY,
    letter: LETTER_OF_F,
    count: COUNT_OF_F,
    employers: EMPLOYERS_OF_F,
    code: CODE_OF_F,
    sum: TOTAL_OF_F,
};

// The amended total of T: that of the S records, or in other editions the one that the caller gives.
fn amended_total(edition: Edition, e: Open, total: u64) -> u64
    ensures { result ≡ amended_total edition e total }
{
    match edition {
        Edition::Of2024 => e.sum,
    }
}

// Whether T may come next: an E of an amended withholding file is open.
fn is_t_next(st: State) -> bool
    ensures { result ≡ total_next (walk_of st) }
{
    format::is_wham_2024(st.held.format) && fitness::is_open(st.stage)
}

// Whether the last E has ended: its T is read, or it is open and needs none.
fn is_ended(stage: Stage, follow: bool) -> bool
    ensures { result ≡ is_ended (standing_of stage) follow }
{
    write::is_after_t(stage) || (fitness::is_open(stage) && !follow)
}

// Whether F may come next: the last E of such a file has ended.
fn is_f_next(st: State) -> bool
    ensures { result ≡ final_next (walk_of st) }
{
    format::is_wham_2024(st.held.format) && is_ended(st.stage, st.open.follow)
}

// Whether a number of T has more digits than its field.
fn is_too_large(payments: u64, original: u64, amended: u64) -> bool
    ensures { result ≡ too_large payments original amended }
{
    TOO_LARGE_FOR_PAYMENTS <= payments || TOO_LARGE_FOR_T <= original || TOO_LARGE_FOR_T <= amended
}

// What is due: the amended total less the payments, with a hyphen in front if it is less than none.
fn put_due(amended: u64, payments: u64, out: &mut [u8])
    ensures { out.new ≡ put_all (due_parts amended payments) out.old }
{
    if payments <= amended {
        rows::write_at(out, DUE_OF_T, amended - payments);
    } else {
        rows::write_text_at(out, DUE_OF_T, b"-");
        number::write_number(out, DUE_OF_T.first + 1, DUE_OF_T.last, payments - amended);
    }
}

// T of the open E, in a slice of the right length.
fn put_t(e: Open, payments: u64, amended: u64, out: &mut [u8])
    requires { length out.old ≡ 275 }
    ensures { out.new ≡ total_record e payments amended }
{
    put::blank_line(out);
    rows::write_text_at(out, LETTER_OF_T, b"T");
    rows::write_at(out, COUNT_OF_T, e.count);
    rows::write_text_at(out, CODE_OF_T, &wham::ENTITY);
    rows::write_at(out, PAYMENTS_OF_T, payments);
    put_due(amended, payments, out);
    rows::write_at(out, ORIGINAL_OF_T, e.second);
    rows::write_at(out, AMENDED_OF_T, amended);
}

// The T record that the walk accepts next, with these payments in whole cents. The total of all
// employees, in whole cents too, is for editions in which the S records do not tell it.
pub fn write_t(st: State, payments: u64, total: u64, out: &mut [u8]) -> Wrote
    ensures { written_by result out.new ≡ total_writing (walk_of st) payments total out.old }
{
    let amended = amended_total(Edition::Of2024, st.open, total);
    let long = out.len() == SIZE;
    let none = write::none_to_total(st.open);
    let large = is_too_large(payments, st.open.second, amended);
    write::answer(write::is_unfit(st), long, is_t_next(st), none, large)?;
    put_t(st.open, payments, amended, out);
    Ok(())
}

// The F record that the walk accepts next.
pub fn write_f(st: State, out: &mut [u8]) -> Wrote
    ensures { written_by result out.new ≡ final_writing (walk_of st) out.old }
{
    write::write_final(st, is_f_next(st), &FINAL, out)
}
