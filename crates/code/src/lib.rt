// The code: plans, the row of each packet, and the theorem that any m packets settle the message.
#![tactic(auto)]

pub mod fault;
pub mod plan;
