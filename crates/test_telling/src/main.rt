// Runs a telling that promises no more than `Telling` asks, and prints what the methods of that
// trait answer at the two tellings that promise more.
#![tactic(auto)]

use ack::Progress;
use edits::format::Format;
use frames::Framed;
use program::{Between, Cases, Held, One, Telling};
use std::io;

// An input of one byte, which is held before anything is read. Its frames are written.
#[derive(Clone, Copy)]
struct HeldAlready;

impl Telling for HeldAlready {
    fn begin(self, rt: HostRuntime) -> Option<Between> {
        Some(Between {
            have: 1,
            left: 0,
            piece: 0,
            format: Format::Pfml,
            progress: Progress::Waiting,
        })
    }

    fn read_more(self, rt: HostRuntime, buf: &mut [u8], at: Between) -> Option<Held> {
        Some(Held {
            bytes: at.have.min(buf.len()),
            left: 0,
            ended: true,
        })
    }

    fn stop(self, rt: HostRuntime) {}

    fn is_over(self, ended: bool, progress: Progress) -> bool {
        ended
    }

    fn tell(self, rt: HostRuntime, framed: Framed, out: &[u8]) -> Option<Between> {
        if let Ok(n) = framed {
            let _ = rt.stdout().write_all(&out[..n.min(out.len())]);
        }
        None
    }
}

fn print_begun(rt: HostRuntime, begun: Option<Between>) -> io::Result<()> {
    match begun {
        Some(at) => {
            let format = u64::from(at.format);
            println!(rt;
                "held {}, left {}, a read {}, format {format}",
                at.have, at.left, at.piece
            )
        }
        None => println!(rt; "no input"),
    }
}

fn print_held(rt: HostRuntime, held: Option<Held>) -> io::Result<()> {
    match held {
        Some(held) => println!(rt;
            "held {}, left {}, ended {}",
            held.bytes, held.left, held.ended
        ),
        None => println!(rt; "not read"),
    }
}

// What the methods answer, one after the other, of an input that begins.
fn print_answers<T: Telling>(rt: HostRuntime, telling: T) -> io::Result<()> {
    let begun = telling.begin(rt);
    print_begun(rt, begun)?;
    let Some(at) = begun else {
        return Ok(());
    };
    let mut buf = [0u8; 4];
    print_held(rt, telling.read_more(rt, &mut buf, at))?;
    let at_end = telling.is_over(true, Progress::Waiting);
    let before = telling.is_over(false, Progress::Waiting);
    println!(rt; "over at the end {at_end}, before {before}")?;
    telling.stop(rt);
    print_begun(rt, telling.tell(rt, Ok(3), b"FF\nnot told"))
}

fn main(rt: HostRuntime) -> io::Result<()> {
    program::run(rt, HeldAlready);
    print_answers(rt, Cases)?;
    print_answers(rt, One(Format::Wham2024))
}
