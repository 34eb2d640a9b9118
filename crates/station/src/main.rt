// Cuts one job into packets, and prints an account of it: the plan, the capacity, and each packet.
#![tactic(auto)]

use binary::ByteField;
use checks::fault::Fault;
use code::plan::{Counts, Plan};
use cutting::cut::{CutError, cut_input};
use cutting::request::REQUEST_LEN;
use job::capacity;
use packet::{HEADER_LEN, Packet, open, packet_len};
use std::io;

// The byte field, m = 5, r = 3, L = 16, and then the job: a list of parts and positions.
const INPUT: &[u8; 81] =
    b"\x00\x05\x03\x10R1 10k 0603 12.50 30.00;C3 100n 0402 4.20 7.75;U2 LQFP48 25.40 18.30 90;D1 1N";

const COUNTS: Counts = Counts {
    data_count: 5,
    check_count: 3,
    row_len: 16,
};

fn print_bytes(rt: &HostRuntime, bytes: &[u8]) -> io::Result<()> {
    for b in bytes {
        print!(rt; " {b:02x}")?;
    }
    println!(rt; "")
}

// Kept: the one line of `crossing`, since a crate for it would be no plainer.
fn print_refusal(rt: &HostRuntime, fault: impl Into<Fault>) -> io::Result<()> {
    println!(rt; "refused {}", fault.into())
}

fn print_packet(rt: &HostRuntime, bytes: &[u8]) -> io::Result<()> {
    match open(bytes) {
        Ok(packet) => {
            let kind = match packet {
                Packet::Data { .. } => "data ",
                Packet::Check { .. } => "check",
            };
            print!(rt; "packet {}  {kind}  row", packet.number())?;
            print_bytes(rt, packet.row())
        }
        Err(fault) => print_refusal(rt, fault),
    }
}

// The same plan that the cutter makes, to tell of its counts.
fn print_plan(rt: &HostRuntime, plan: &Plan) -> io::Result<()> {
    println!(rt; "plan      {plan}")?;
    let most = capacity(plan);
    let bytes = packet_len(plan);
    println!(rt;
        "capacity  {most} bytes; a packet has {bytes}, of which {HEADER_LEN} are its header"
    )
}

fn print_packets(rt: &HostRuntime, plan: &Plan, packets: &[u8]) -> io::Result<()> {
    if let Some(header) = packets.get(..HEADER_LEN) {
        print!(rt; "header   ")?;
        print_bytes(rt, header)?;
    }
    for bytes in packets.chunks(packet_len(plan)) {
        print_packet(rt, bytes)?;
    }
    println!(rt;
        "any {} of these packets give the job back",
        plan.data_count()
    )
}

fn main(rt: HostRuntime) -> io::Result<()> {
    let mut plan = Plan::new();
    if let Err(fault) = plan.make(&ByteField {}, COUNTS, &[0, 1, 2, 3, 4], &[5, 6, 7]) {
        return print_refusal(&rt, fault);
    }
    let count = INPUT.len() - REQUEST_LEN;
    println!(rt; "job       {count} bytes: parts and positions of one panel")?;
    print_plan(&rt, &plan)?;
    match cut_input(rt.alloc(), INPUT) {
        Ok(packets) => print_packets(&rt, &plan, packets.as_slice()),
        Err(CutError::Refused(fault)) => print_refusal(&rt, fault),
        Err(CutError::Memory) => eprintln!(rt; "no memory for the packets"),
    }
}
