// The words of a dialog as values, and values as words.
#![tactic(auto)]

mod cell;
pub mod decimal;
pub mod hex;
