// What a wage file means: the sentence in the manual, with no state and no table. All of it is in
// specs/: this crate has no code.
#![tactic(auto)]
