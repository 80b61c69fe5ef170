// What every acknowledging program does: it reads from standard input, makes the turns of the
// library, and writes the frames to standard output. No rule of the paper stands here. Its memory
// is fixed, whatever the input's size.
#![tactic(auto)]

mod cases;
mod one;
pub mod stated;

ghost use Rattle.std.specs.Prelude.{◌≡◌, ◌≤◌, IfSome, length};
ghost use Rattle.ack.specs.declared.Progress.TheVariants.{Waiting};

use ack::Progress;
pub use cases::Cases;
use edits::format::Format;
use frames::Framed;
pub use one::One;
use state::State;
use tables::{Employer, list};

// What one read left in the buffer: how many bytes are held there, how many of the input are still
// to come, where this is known, and whether it has ended.
#[derive(Clone, Copy)]
pub struct Held {
    pub bytes: usize,
    pub left: u64,
    pub ended: bool,
}

// Where the program is between two turns: how many bytes stand before the next read, how many bytes
// of the input are still to come, how many a read brings at most, the input's format, and how it
// stands.
#[derive(Clone, Copy)]
pub struct Between {
    pub have: usize,
    pub left: u64,
    pub piece: u64,
    pub format: Format,
    pub progress: Progress,
}

// What stands on standard input, and what is told of it: an input, or one after the other. `run`
// takes every one; those that promise more are `stated::StatedTelling`.
pub trait Telling: Copy {
    // The beginning of the first input, if there is one.
    fn begin(self, rt: HostRuntime) -> Option<Between>;

    // Reads the next bytes of the input after those held; nothing, where they could not be read or
    // the input is cut short.
    fn read_more(self, rt: HostRuntime, buf: &mut [u8], at: Between) -> Option<Held>
        ensures { IfSome result (λ held. held.bytes ≤ length buf.new) };

    // A read that failed ends the program.
    fn stop(self, rt: HostRuntime);

    // Whether the answer is told now.
    fn is_over(self, ended: bool, progress: Progress) -> bool;

    // Tells the answer; after it comes the beginning of the next input, if there is one.
    fn tell(self, rt: HostRuntime, framed: Framed, out: &[u8]) -> Option<Between>;
}

// Before the header of an input that has so many bytes, or of one that is all there is to read.
fn before(left: u64, piece: u64, format: Format) -> Between
    ensures { result ≡ record { have = 0; left = left; piece = piece; format = format; progress = Waiting } }
{
    Between {
        have: 0,
        left,
        piece,
        format,
        progress: Progress::Waiting,
    }
}

// The state that has frames once the input is finished.
fn state_of(progress: Progress) -> State {
    match progress {
        Progress::Waiting => state::opened(state::no_opening()),
        Progress::Walking(st) | Progress::Finished(st) => st,
    }
}

// Reads, turns and frames until all is told. An input that is not finished has no frames. No
// contract can say that an input ends, so the turns are counted.
fn all_turns<T: Telling>(
    rt: HostRuntime,
    telling: T,
    buf: &mut [u8],
    ids: &mut [u32],
    list: &mut [Employer],
    out: &mut [u8],
) {
    let mut next = telling.begin(rt);
    for _ in 0..u64::MAX {
        let Some(at) = next else {
            return;
        };
        let Some(held) = telling.read_more(rt, buf, at) else {
            return telling.stop(rt);
        };
        let bytes = &buf[..held.bytes];
        let turned = ack::turn(at.format, at.progress, bytes, held.ended, ids, list);
        next = if telling.is_over(held.ended, turned.progress) {
            let framed = frames::frames(state_of(turned.progress), list, out);
            telling.tell(rt, framed, out)
        } else {
            Some(Between {
                have: ack::keep(buf, turned.taken, held.bytes),
                left: held.left,
                progress: turned.progress,
                ..at
            })
        };
    }
}

// Acknowledges what standard input holds. That it ends is all that can be promised: no contract
// says what is read and written. The frames take at most 47 bytes for each of 1,024 employers, and
// 35 more.
pub fn run<T: Telling>(rt: HostRuntime, telling: T) {
    let mut buf = [0u8; 524288];
    let mut ids = [0u32; 8192];
    let mut list = [list::AT_REST; 1024];
    let mut out = [0u8; 48163];
    all_turns(rt, telling, &mut buf, &mut ids, &mut list, &mut out);
}
