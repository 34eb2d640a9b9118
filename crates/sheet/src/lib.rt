// Sheets: a message laid row by row into a borrowed buffer, and cut into packets once it is closed.
#![tactic(auto)]

pub mod closed;
pub mod fault;
pub mod opened;
