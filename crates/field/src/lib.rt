// The classes of fields: a class, with a field's first and last column, says what the field is to
// hold, at any record length.
#![tactic(auto)]

pub mod class;
