// The formats: the one place where code asks which format a line is of. Of a number that names none
// every line is one of no record.
#![tactic(auto, unfolding(crate::specs::Judge::judge))]

ghost use Rattle.std.specs.Prelude.{◌≡◌, ◌&&◌, leb};
ghost use Rattle.reason.specs.ReasonNumbers.{finding_of};
ghost use Rattle.lines.specs.Lines.{first_line};
ghost use Rattle.chars.specs.Characters.{capitals};
ghost use Rattle.edits.specs.Edit.{first_broken};
ghost use Rattle.shape.specs.Shape.{judged_by, text_verdict_by, fein_asked, id_asked};
ghost use Rattle.record.specs.ShapeOf.{shape_of};
ghost use Rattle.record.specs.Judge.{judge as judge_of};

use calendar::Quarter;
use edits::format::Format;
use edits::{Context, Open, Opening, Phase, Seen, Totals};
use pfml::Pfml;
use reason::{Broken, Edit, Reason};
use shape::{Said, Verdict, layout};
use wham::Wham;
use wham_fields::Edition;

// How many characters a line has.
pub fn length_of(format: Format) -> u16
    ensures { result ≡ (shape_of format).length }
{
    match format {
        Format::Pfml => pfml_fields::RECORD,
        Format::Wham2024 => wham_fields::RECORD,
        Format::Unknown => 1,
    }
}

// The most lines that are read.
pub fn most_lines(format: Format) -> u32
    ensures { result ≡ (shape_of format).most_lines }
{
    match format {
        Format::Pfml => pfml::fitness::MOST_LINES,
        Format::Wham2024 => wham::fitness::most_lines(Edition::Of2024),
        Format::Unknown => 231074,
    }
}

// The most cents that one record says of an amount.
pub fn most_cents(format: Format) -> u64
    ensures { result ≡ (shape_of format).most_cents }
{
    match format {
        Format::Pfml => pfml::fitness::MOST_CENTS,
        Format::Wham2024 => wham::fitness::MOST_CENTS,
        Format::Unknown => 99999999999999,
    }
}

// 72, the clauses of the format's own: by the length of the id table, the ids in use, whether an E
// is open, and the numbers of the file and of the open E.
pub fn unfit_more(
    format: Format,
    ids: usize,
    used: usize,
    is_open: bool,
    all: Totals,
    e: Open,
) -> bool
    ensures { result ≡ (shape_of format).unfit_more ids used is_open all e }
{
    match format {
        Format::Pfml => pfml::fitness::ids_unfit(ids, used, is_open),
        Format::Wham2024 => wham::fitness::second_unfit(is_open, all, e),
        Format::Unknown => false,
    }
}

// 72: whether the quarter that the file reports is none that the format allows.
pub fn quarter_unfit(phase: Phase, held: Opening, filed: Quarter) -> bool
    ensures { result ≡ (shape_of held.format).quarter_unfit phase held filed }
{
    match held.format {
        Format::Pfml => pfml::fitness::quarter_unfit(phase, held, filed),
        Format::Wham2024 => wham::fitness::quarter_unfit(phase, held, filed),
        Format::Unknown => false,
    }
}

// Whether a number is one that the refusal of an edit leaves in the state.
pub fn is_left(format: Format, number: u8) -> bool
    ensures { result ≡ (shape_of format).is_left number }
{
    match format {
        Format::Pfml => pfml::fitness::is_left(number),
        Format::Wham2024 => wham::fitness::is_left(Edition::Of2024, number),
        Format::Unknown => matches!(number, 1..=8),
    }
}

// All edits of a line of the right length.
#[tactic(auto, using(edits::specs::EditLaws::first_one))]
fn text_edit(format: Format, here: Context, seen: Seen, line: &[u8]) -> Edit
    ensures { finding_of result ≡ first_broken ((shape_of format).edits here seen (capitals line.now)) }
{
    match format {
        Format::Pfml => layout::text_edit(Pfml, here, seen, line),
        Format::Wham2024 => layout::text_edit(Wham(Edition::Of2024), here, seen, line),
        Format::Unknown => Err(Broken(1, Reason::UnknownLetter)),
    }
}

// What the record on a line says.
pub fn said_on(format: Format, line: &[u8]) -> Said
    ensures { result ≡ (shape_of format).says (capitals line.now) }
{
    match format {
        Format::Pfml => layout::said_on(Pfml, line),
        Format::Wham2024 => layout::said_on(Wham(Edition::Of2024), line),
        Format::Unknown => Said::OfNone,
    }
}

// What the record on a line asks of the employer list.
pub fn fein_asked(format: Format, line: &[u8]) -> Option<u64>
    ensures { result ≡ fein_asked ((shape_of format).says (capitals line.now)) }
{
    match format {
        Format::Pfml => layout::fein_asked(Pfml, line),
        Format::Wham2024 => layout::fein_asked(Wham(Edition::Of2024), line),
        Format::Unknown => None,
    }
}

// What the record on a line asks of the id table.
pub fn id_asked(format: Format, line: &[u8]) -> Option<u64>
    ensures { result ≡ id_asked ((shape_of format).says (capitals line.now)) }
{
    match format {
        Format::Pfml => layout::id_asked(Pfml, line),
        Format::Wham2024 => layout::id_asked(Wham(Edition::Of2024), line),
        Format::Unknown => None,
    }
}

// The verdict on a line of the right length that takes so many bytes.
fn judge_text(format: Format, here: Context, seen: Seen, line: &[u8], taken: usize) -> Verdict
    ensures { judged_by result ≡ text_verdict_by (shape_of format) here seen (capitals line.now) taken }
{
    text_edit(format, here, seen, line)?;
    Ok((taken, said_on(format, line)))
}

// The verdict on the first line of the bytes.
pub fn judge(here: Context, seen: Seen, bytes: &[u8]) -> Verdict
    ensures { judged_by result ≡ judge_of here seen (first_line bytes.now) }
{
    let format = here.held.format;
    let length = length_of(format);
    let taken = lines::cut_line(bytes, length)?;
    judge_text(format, here, seen, &bytes[..length as usize], taken)
}
