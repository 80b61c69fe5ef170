// The frames of an acknowledgement, written into a lent buffer.
#![tactic(auto, unfolding(crate::specs::Hex::hex_digit))]

ghost use Rattle.std.specs.Prelude.{◌+◌, ◌*◌, ◌≤◌, ◌<◌, ◌++◌, ◌≡◌, length, take};
ghost use Rattle.reason.specs.ReasonNumbers.{notice_of};
ghost use Rattle.edits.specs.declared.format.Format.TheVariants.{Pfml};
ghost use Rattle.tables.specs.Room.{most_employers};
ghost use Rattle.state.specs.Walks.{walk_of};
ghost use Rattle.frames.specs.Hex.{hex_digit, hex};
ghost use Rattle.frames.specs.Pasted.{pasted};
ghost use Rattle.frames.specs.Frames.{line_end, three_numbers, employer_frame, employer_size, employer_frames, closing_frame, refusal_frame, framed_by, fitted, framing};

use edits::Totals;
use edits::format::Format;
use reason::Refusal;
use state::{Stage, State, fitness};
use tables::Employer;

// Why nothing is written, each with its number: the state is unfit, which a list shorter than the
// employers makes it too; the walk has not ended; the buffer is too small.
#[derive(Clone, Copy, PartialEq, Eq)]
pub enum Unframed {
    Unfit = 72,
    NotEnded = 87,
    TooSmall = 88,
}

// How many bytes are written, or why none is.
pub type Framed = Result<usize, Unframed>;

// A digit in capitals.
fn hex_digit(d: u8) -> u8
    requires { d < 16 }
    ensures { result ≡ hex_digit d }
{
    if d < 10 { b'0' + d } else { b'A' - 10 + d }
}

// The last digits of a number, from a place of the buffer on.
fn put_hex(out: &mut [u8], at: usize, digits: usize, v: u64)
    requires { at + digits ≤ length out.old }
    ensures { out.new ≡ pasted at (hex digits v) out.old }
{
    let mut rest = v;
    for left in (0..digits).rev() {
        out[at + left] = hex_digit((rest % 16) as u8);
        rest /= 16;
    }
}

// The kind of a frame and three numbers, the last of 8 bytes: all frames but a refusal's begin so.
fn put_three_numbers(out: &mut [u8], at: usize, kind: u64, a: u64, b: u64, cents: u64)
    requires { at + 34 ≤ length out.old }
    ensures { out.new ≡ pasted at (three_numbers kind a b cents) out.old }
{
    put_hex(out, at, 2, kind);
    put_hex(out, at + 2, 8, a);
    put_hex(out, at + 10, 8, b);
    put_hex(out, at + 18, 16, cents);
}

// A frame of no more than three numbers: the closing one, and document 01's of an employer.
fn put_short_frame(out: &mut [u8], at: usize, kind: u64, a: u64, b: u64, cents: u64)
    requires { at + 35 ≤ length out.old }
    ensures { out.new ≡ pasted at (three_numbers kind a b cents ++ line_end) out.old }
{
    put_three_numbers(out, at, kind, a, b, cents);
    out[at + 34] = b'\n';
}

// PFML's frame of an employer: the flags and the cease date come after the three numbers.
fn put_pfml_employer(out: &mut [u8], at: usize, e: Employer)
    requires { at + 47 ≤ length out.old }
    ensures { out.new ≡ pasted at (employer_frame Pfml e) out.old }
{
    put_three_numbers(out, at, 2, e.fein, e.count, e.cents);
    put_hex(out, at + 34, 2, e.amended);
    put_hex(out, at + 36, 2, e.final_return);
    put_hex(out, at + 38, 8, e.cease_date);
    out[at + 46] = b'\n';
}

// An employer's frame, at its place.
fn put_employer(format: Format, out: &mut [u8], i: usize, e: Employer)
    requires { employer_size format * i + employer_size format ≤ length out.old }
    ensures { out.new ≡ pasted (employer_size format * i) (employer_frame format e) out.old }
{
    match format {
        Format::Pfml => put_pfml_employer(out, 47 * i, e),
        Format::Wham2024 | Format::Unknown => {
            put_short_frame(out, 35 * i, 1, e.fein, e.count, e.cents)
        }
    }
}

// The frames of employers, at the front of the buffer.
fn put_employers(format: Format, out: &mut [u8], list: &[Employer])
    requires { employer_size format * length list.now ≤ length out.old }
    ensures { out.new ≡ pasted 0 (employer_frames format list.now) out.old }
{
    for (i, e) in list.iter().enumerate() {
        put_employer(format, out, i, *e);
    }
}

// The bytes of n employers' frames.
fn employers_size(format: Format, n: usize) -> usize
    requires { n ≤ most_employers }
    ensures { result ≡ employer_size format * n }
{
    match format {
        Format::Pfml => 47 * n,
        Format::Wham2024 | Format::Unknown => 35 * n,
    }
}

// The frames of an accepted file: those of its employers, then the closing one.
fn accepted(format: Format, all: Totals, list: &[Employer], out: &mut [u8]) -> Framed
    requires { (all.employers ≤ most_employers) × (all.employers ≤ length list.now) }
    ensures { framed_by result out.new ≡ fitted (employer_frames format (take all.employers list.now) ++ closing_frame all) out.old }
{
    let n = all.employers as usize;
    let front = employers_size(format, n);
    let size = front + 35;
    if out.len() < size {
        return Err(Unframed::TooSmall);
    }
    put_employers(format, out, &list[..n]);
    put_short_frame(out, front, 0, all.count, all.employers, all.sum);
    Ok(size)
}

// A refusal has one frame.
fn refused(refusal: Refusal, out: &mut [u8]) -> Framed
    ensures { framed_by result out.new ≡ fitted (refusal_frame (notice_of refusal)) out.old }
{
    if out.len() < 17 {
        return Err(Unframed::TooSmall);
    }
    put_hex(out, 0, 2, 255);
    put_hex(out, 2, 2, u64::from(u8::from(refusal.reason)));
    put_hex(out, 4, 8, u64::from(refusal.line));
    put_hex(out, 12, 4, u64::from(refusal.column));
    out[16] = b'\n';
    Ok(17)
}

// The acknowledgement of a walk that has ended, at the front of the buffer: at most 47 bytes for
// each employer and 35 more. A walk that still reads has none, the phase after F included.
pub fn frames(st: State, list: &[Employer], out: &mut [u8]) -> Framed
    ensures { framed_by result out.new ≡ framing (walk_of st) list.now out.old }
{
    if fitness::is_unfit(st, st.used, list.len()) {
        return Err(Unframed::Unfit);
    }
    match st.stage {
        Stage::Reading(_) => Err(Unframed::NotEnded),
        Stage::Accepted => accepted(st.held.format, st.all, list, out),
        Stage::Refused(refusal) => refused(refusal, out),
    }
}
