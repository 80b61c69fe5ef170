// The T and the F record of PFML that a walk accepts next, written into a lent slice; and what the
// writing of every format answers, with the F record, which is alike in all of them.
#![tactic(auto, unfolding(crate::specs::Records::final_record, crate::specs::Records::put_all, crate::specs::Records::total_record, laws::specs::Spelling::bytes))]

ghost use Rattle.std.specs.Prelude.{false, ◌≡◌, ◌^◌, eqb, leb, length};
ghost use Rattle.reason.specs.ReasonNumbers.{notice};
ghost use Rattle.text.specs.Put.{blanks};
ghost use Rattle.state.specs.Unfit.{unfit};
ghost use Rattle.state.specs.Walks.{walk_of, standing_of};
ghost use Rattle.write.specs.Records.{put_all, line_of, total_record, parts_of_final};
ghost use Rattle.write.specs.Writing.{no_tables, is_after_t, total_next, final_next, none_to_total, refusal_of, writing, total_writing, final_writing, notice_in, written_by};

use edits::{Open, Phase, Totals, format, rows};
use field::class::Field;
use pfml_fields::{
    CODE_OF_F, CODE_OF_T, COUNT_OF_F, COUNT_OF_T, EMPLOYERS_OF_F, FEIN_OF_T, LETTER_OF_F,
    LETTER_OF_T, WAGES_OF_F, WAGES_OF_T,
};
use reason::{Reason, Refusal};
use state::{Stage, State, fitness};
use text::put;

// The record is written; or it is not, and the slice is as it was.
pub type Wrote = Result<(), Refusal>;

// How many characters a record of PFML has.
const SIZE: usize = pfml_fields::RECORD as usize;

// A sum that is too large for the 14 columns of T, and for the 15 of F.
const TOO_LARGE_FOR_T: u64 = 100000000000000;

const TOO_LARGE_FOR_F: u64 = 1000000000000000;

// A format's F record: how many characters it has, the taxing entity's code, and the rows of its
// fields.
#[derive(Clone, Copy)]
pub struct FinalRecord {
    pub size: usize,
    pub entity: [u8; 4],
    pub letter: Field,
    pub count: Field,
    pub employers: Field,
    pub code: Field,
    pub sum: Field,
}

// That of PFML.
const FINAL: FinalRecord = FinalRecord {
    size: SIZE,
    entity: pfml::ENTITY,
    letter: LETTER_OF_F,
    count: COUNT_OF_F,
    employers: EMPLOYERS_OF_F,
    code: CODE_OF_F,
    sum: WAGES_OF_F,
};

// Whether the walk stands right after a T.
pub fn is_after_t(stage: Stage) -> bool
    ensures { result ≡ is_after_t (standing_of stage) }
{
    matches!(stage, Stage::Reading(Phase::AfterT))
}

// Whether T may come next: an E of a PFML file is open.
fn is_t_next(st: State) -> bool
    ensures { result ≡ total_next (walk_of st) }
{
    format::is_pfml(st.held.format) && fitness::is_open(st.stage)
}

// Whether F may: a PFML file stands right after a T.
fn is_f_next(st: State) -> bool
    ensures { result ≡ final_next (walk_of st) }
{
    format::is_pfml(st.held.format) && is_after_t(st.stage)
}

// No S record stands under an E that says that some follow.
pub fn none_to_total(e: Open) -> bool
    ensures { result ≡ none_to_total e }
{
    e.count == 0 && e.follow
}

// 72 for a call that is lent no table: room for what is in use.
pub fn is_unfit(st: State) -> bool
    ensures { result ≡ unfit (no_tables (walk_of st)) (walk_of st) }
{
    fitness::is_unfit(st, st.used, st.all.employers as usize)
}

// The refusals in order: `long` says that the slice has its length, `next` that the record may come
// next, `none` that there is none to total, `large` that the sum is too large.
#[tactic(auto, unfolding(crate::specs::Writing::refusal_of))]
pub fn answer(unfit: bool, long: bool, next: bool, none: bool, large: bool) -> Wrote
    ensures { notice_in result ≡ notice (refusal_of unfit long next none large) 0 0 }
{
    let reason = if unfit {
        Reason::StateUnfit
    } else if !long {
        Reason::SliceLength
    } else if !next {
        Reason::NotToBeWritten
    } else if none {
        Reason::NoneToTotal
    } else if large {
        Reason::SumTooLarge
    } else {
        return Ok(());
    };
    Err(Refusal {
        line: 0,
        column: 0,
        reason,
    })
}

// T of the open E, in a slice of the right length.
fn put_t(e: Open, out: &mut [u8])
    requires { length out.old ≡ 290 }
    ensures { out.new ≡ total_record e }
{
    put::blank_line(out);
    rows::write_text_at(out, LETTER_OF_T, b"T");
    rows::write_at(out, COUNT_OF_T, e.count);
    rows::write_text_at(out, CODE_OF_T, &pfml::ENTITY);
    rows::write_at(out, FEIN_OF_T, e.fein);
    rows::write_at(out, WAGES_OF_T, e.sum);
}

// F of the whole file.
#[inline(always)]
fn put_f(of: &FinalRecord, all: Totals, out: &mut [u8])
    ensures { out.new ≡ put_all (parts_of_final of.now all) (blanks (length out.old)) }
{
    put::blank_line(out);
    rows::write_text_at(out, of.letter, b"F");
    rows::write_at(out, of.count, all.count);
    rows::write_at(out, of.employers, all.employers);
    rows::write_text_at(out, of.code, &of.entity);
    rows::write_at(out, of.sum, all.sum);
}

// The F record of a format, where `next` says that it may come next. It is compiled into its callers,
// where the columns are known.
#[inline(always)]
pub fn write_final(st: State, next: bool, of: &FinalRecord, out: &mut [u8]) -> Wrote
    ensures { written_by result out.new ≡ writing (refusal_of (unfit (no_tables (walk_of st)) (walk_of st)) (eqb (length out.old) of.now.size) next false (leb (10 ^ 15) (walk_of st).all.sum)) (line_of of.now.size (parts_of_final of.now (walk_of st).all)) out.old }
{
    let long = out.len() == of.size;
    let large = TOO_LARGE_FOR_F <= st.all.sum;
    answer(is_unfit(st), long, next, false, large)?;
    put_f(of, st.all, out);
    Ok(())
}

// The T record that the walk accepts next.
pub fn write_t(st: State, out: &mut [u8]) -> Wrote
    ensures { written_by result out.new ≡ total_writing (walk_of st) out.old }
{
    let long = out.len() == SIZE;
    let large = TOO_LARGE_FOR_T <= st.open.sum;
    let none = none_to_total(st.open);
    answer(is_unfit(st), long, is_t_next(st), none, large)?;
    put_t(st.open, out);
    Ok(())
}

// The F record that the walk accepts next.
pub fn write_f(st: State, out: &mut [u8]) -> Wrote
    ensures { written_by result out.new ≡ final_writing (walk_of st) out.old }
{
    write_final(st, is_f_next(st), &FINAL, out)
}
