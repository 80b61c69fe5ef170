// What a proof by hand is written with: the steps of a function that is lent a table of structs.
// All of it is in proofs/: this crate has no code.
#![tactic(auto)]
