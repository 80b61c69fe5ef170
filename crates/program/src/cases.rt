// Many inputs. Each stands after eight digits, how many bytes it has; a blank; five digits, how many
// bytes a read brings at most; a blank; a digit, the number of its format; LF. Its acknowledgement
// is told, and a line with a full stop. The tables keep for the next case what one left in them. A
// case that is cut short ends the program.
#![tactic(auto)]

ghost use Rattle.std.specs.Prelude.{◌≡◌, ◌+◌, ◌≤◌, IfSome, length};
ghost use Rattle.ack.specs.declared.Progress.TheVariants.{Waiting};

use crate::stated::StatedTelling;
use crate::{Between, Held};
use ack::Progress;
use edits::format::Format;
use frames::Framed;

#[derive(Clone, Copy)]
pub struct Cases;

// Reads up to `want` bytes after those held, as far as there is room, and tells how many are held
// then: none more, where a read failed.
fn read_piece(rt: HostRuntime, buf: &mut [u8], have: usize, want: u64) -> usize
    requires { have ≤ length buf.old }
    ensures { (have ≤ result) × (result ≤ have + want) × (result ≤ length buf.new) }
{
    let room = buf.len() - have;
    let end = have + want.min(room as u64) as usize;
    match streams::read_full(rt, &mut buf[have..end]) {
        Ok(got) => have + got,
        Err(_) => have,
    }
}

impl StatedTelling for Cases {
    ghost over = { λ cases ended progress. ended };

    // Each case names its own format.
    fn begin(self, rt: HostRuntime) -> Option<Between> {
        let mut head = [0u8; 17];
        let Ok(17) = streams::read_full(rt, &mut head) else {
            return None;
        };
        Some(crate::before(
            number::value_in(&head, 1, 8),
            number::value_in(&head, 10, 14),
            Format::from(number::value_in(&head, 16, 16)),
        ))
    }

    // After its last bytes the case has ended.
    fn read_more(self, rt: HostRuntime, buf: &mut [u8], at: Between) -> Option<Held> {
        let have = at.have.min(buf.len());
        if at.left == 0 {
            return Some(Held {
                bytes: have,
                left: 0,
                ended: true,
            });
        }
        let end = read_piece(rt, buf, have, at.piece.min(at.left));
        if end == have {
            return None;
        }
        Some(Held {
            bytes: end,
            left: at.left - (end - have) as u64,
            ended: false,
        })
    }

    fn stop(self, rt: HostRuntime) {}

    // What is left of a case after a refusal is read over.
    fn is_over(self, ended: bool, progress: Progress) -> bool {
        ended
    }

    // A failed write is not told.
    fn tell(self, rt: HostRuntime, framed: Framed, out: &[u8]) -> Option<Between> {
        if let Ok(n) = framed {
            let _ = rt.stdout().write_all(&out[..n.min(out.len())]);
        }
        let _ = rt.stdout().write_all(b".\n");
        self.begin(rt)
    }
}
