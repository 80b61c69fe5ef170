// Reads a header and a wage file of PFML from standard input and writes the acknowledgement to
// standard output.
#![tactic(auto)]

use edits::format::Format;
use program::One;

fn main(rt: HostRuntime) {
    program::run(rt, One(Format::Pfml));
}
