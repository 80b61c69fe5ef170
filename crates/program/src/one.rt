// One input: a header and a wage file of a format. Its acknowledgement is told, and what goes wrong
// on standard error.
#![tactic(auto)]

ghost use Rattle.std.specs.Prelude.{◌≡◌, ◌≤◌, IfSome, Some, None, length};
ghost use Rattle.ack.specs.declared.Progress.TheVariants.{Waiting};
ghost use Rattle.program.specs.Tellings.{is_finished};

use crate::stated::StatedTelling;
use crate::{Between, Held};
use ack::Progress;
use edits::format::Format;
use frames::Framed;
use std::io::Read;

#[derive(Clone, Copy)]
pub struct One(pub Format);

// What cannot be told on standard error is told nowhere.
fn message(rt: HostRuntime, text: &[u8]) {
    let _ = rt.stderr().write_all(text);
}

impl StatedTelling for One {
    ghost over = { λ one ended progress. is_finished progress };

    // There is always one.
    fn begin(self, rt: HostRuntime) -> Option<Between>
        ensures { result ≡ Some (record { have = 0; left = 0; piece = 0; format = self.0; progress = Waiting }) }
    {
        Some(crate::before(0, 0, self.0))
    }

    // Without room a read would bring nothing and look like the end of the input, so that counts as
    // failed; a turn leaves less than the longest line over (`left_short`), so it does not happen.
    fn read_more(self, rt: HostRuntime, buf: &mut [u8], at: Between) -> Option<Held> {
        if buf.len() <= at.have {
            return None;
        }
        let got = rt.stdin().read(&mut buf[at.have..]).ok()?;
        Some(Held {
            bytes: at.have + got,
            left: 0,
            ended: got == 0,
        })
    }

    fn stop(self, rt: HostRuntime) {
        message(rt, b"acknowledge: standard input could not be read\n");
    }

    fn is_over(self, ended: bool, progress: Progress) -> bool {
        matches!(progress, Progress::Finished(_))
    }

    // Of a finished walk the frames are always written (`program_means`); any other answer is told,
    // and no frame comes.
    fn tell(self, rt: HostRuntime, framed: Framed, out: &[u8]) -> Option<Between>
        ensures { result ≡ None }
    {
        match framed {
            Ok(n) => {
                if rt.stdout().write_all(&out[..n.min(out.len())]).is_err() {
                    message(rt, b"acknowledge: the answer could not be written\n");
                }
            }
            Err(_) => message(rt, b"acknowledge: no frames for the state at the end\n"),
        }
        None
    }
}
