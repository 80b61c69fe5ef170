// Tellings that promise more than `run` needs. The trait is not named at the top of the crate, so
// that where all names of that are brought in, a method of `One` or `Cases` is that of `Telling`.
#![tactic(auto)]

ghost use Rattle.std.specs.Prelude.{◌≡◌, ◌≤◌, Bool, IfSome, length};
ghost use Rattle.ack.specs.declared.Progress.{Progress};
ghost use Rattle.ack.specs.declared.Progress.TheVariants.{Waiting};

use crate::{Between, Held, Telling};
use ack::Progress;
use frames::Framed;

// A telling that promises how an input begins and when its answer is told.
pub trait StatedTelling: Copy {
    // Whether the answer is told, as the input has ended or not and the program stands.
    ghost over: { Self → Bool → Progress → Bool };

    // The beginning of the first input, if there is one.
    fn begin(self, rt: HostRuntime) -> Option<Between>
        ensures { IfSome result (λ at. (at.have ≡ 0) × (at.progress ≡ Waiting)) };

    // Reads the next bytes of the input after those held; nothing, where they could not be read or
    // the input is cut short.
    fn read_more(self, rt: HostRuntime, buf: &mut [u8], at: Between) -> Option<Held>
        ensures { IfSome result (λ held. held.bytes ≤ length buf.new) };

    // A read that failed ends the program. It promises nothing: it only writes, and no contract can
    // say what is written.
    fn stop(self, rt: HostRuntime);

    // Whether the answer is told now.
    fn is_over(self, ended: bool, progress: Progress) -> bool
        ensures { result ≡ over self ended progress };

    // Tells the answer; after it comes the beginning of the next input, if there is one.
    fn tell(self, rt: HostRuntime, framed: Framed, out: &[u8]) -> Option<Between>
        ensures { IfSome result (λ at. (at.have ≡ 0) × (at.progress ≡ Waiting)) };
}

// Each of them is a telling, whose methods promise the same.
impl<T: StatedTelling> Telling for T {
    fn begin(self, rt: HostRuntime) -> Option<Between>
        ensures { IfSome result (λ at. (at.have ≡ 0) × (at.progress ≡ Waiting)) }
    {
        StatedTelling::begin(self, rt)
    }

    fn read_more(self, rt: HostRuntime, buf: &mut [u8], at: Between) -> Option<Held> {
        StatedTelling::read_more(self, rt, buf, at)
    }

    fn stop(self, rt: HostRuntime) {
        StatedTelling::stop(self, rt)
    }

    fn is_over(self, ended: bool, progress: Progress) -> bool
        ensures { result ≡ T.over self ended progress }
    {
        StatedTelling::is_over(self, ended, progress)
    }

    fn tell(self, rt: HostRuntime, framed: Framed, out: &[u8]) -> Option<Between>
        ensures { IfSome result (λ at. (at.have ≡ 0) × (at.progress ≡ Waiting)) }
    {
        StatedTelling::tell(self, rt, framed, out)
    }
}
