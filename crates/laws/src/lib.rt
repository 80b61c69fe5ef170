// The words that every layer's definitions are written in, and the laws that several layers cite.
// All of it is in specs/: this crate has no code.
#![tactic(auto)]
