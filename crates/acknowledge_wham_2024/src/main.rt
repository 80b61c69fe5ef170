// Reads a header and an amended withholding file, edition 2024, from standard input and writes the
// acknowledgement to standard output.
#![tactic(auto)]

use edits::format::Format;
use program::One;

fn main(rt: HostRuntime) {
    program::run(rt, One(Format::Wham2024));
}
