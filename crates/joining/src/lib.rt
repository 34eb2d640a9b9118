// Packets that come one behind the other: where the first stands, what its header tells, and the job that they give.
#![tactic(auto)]

pub mod fault;
pub mod finds;
pub mod heading;
pub mod jobs;
pub mod plans;
#[cfg(test)]
mod tests;
