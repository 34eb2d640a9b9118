// The calls that lines ask for, each with all that it takes, its buffers filled.
use code::plan::Counts;
use cutting::request::FieldChoice;
use packet::Job;

// The nodes of a plan.
#[derive(Drop)]
pub enum Nodes {
    // Those of the data packets, and those of the check packets.
    Given(Vec<u16>, Vec<u16>),
    Standard,
}

#[derive(Drop)]
pub struct PlanCall {
    pub counts: Counts,
    pub nodes: Nodes,
    pub field: FieldChoice,
}

// The calls on an open receiver.
#[derive(Drop)]
pub enum ReceiverCall {
    Offer(Vec<u8>, FieldChoice),
    Read(Vec<u16>, FieldChoice),
    Rebuild(Vec<u8>, FieldChoice, usize),
    Missing,
}

#[derive(Drop)]
pub enum Call {
    Make(PlanCall),
    Nodes,
    Open(Job),
    Receive(ReceiverCall),
    Sheet(Vec<u16>),
    Lay(usize, Vec<u16>),
    Close,
    Cut(Job, FieldChoice, usize, Vec<u8>),
    Apart,
    Pack(Vec<u8>, Vec<u16>),
    Unpack(Vec<u16>, usize, Vec<u8>),
}
