// Demand 3: what an acknowledgement tells of the employees. All of it is in specs/: this crate has
// no code.
#![tactic(auto)]
