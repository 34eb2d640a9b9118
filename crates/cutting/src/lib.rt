// Cuts a whole job: what the cutter's input asks for, and all packets of it, in order, nothing between.
#![tactic(auto)]

pub mod cut;
mod packets;
pub mod plans;
pub mod request;
#[cfg(test)]
mod tests;
