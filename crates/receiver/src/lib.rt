// The machine's side: a receiver that accepts packets, and answers with the message once any m are accepted.
#![tactic(auto)]

pub mod fault;
pub mod receiver;
pub mod run;
pub mod shelf;
mod solve;
