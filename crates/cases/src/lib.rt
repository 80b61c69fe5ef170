// The cases that the paper has checked by hand, proved of the definitions. All of it is in specs/:
// this crate has no code.
#![tactic(auto)]
