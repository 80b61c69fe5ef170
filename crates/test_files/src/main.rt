// Runs many inputs of the acknowledging programs through the same turns, each in the format that it
// names and in reads of a stated size, and prints each acknowledgement and a line with a full stop:
// `Cases` of the crate `program`.
#![tactic(auto)]

use program::Cases;

fn main(rt: HostRuntime) {
    program::run(rt, Cases);
}
