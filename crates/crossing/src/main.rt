// One job on its way over a bad bridge: it is packed, cut and sent; what arrives is offered, read and unpacked.
// All calls on the receiver go through `run`, whose contract is the promise over whole runs.
#![tactic(auto)]

mod account;
mod bridge;

use account::print_all;
use binary::ByteField;
use bridge::{JOB_NUMBER, PACKET_LEN, calls_for, carry, job_numbered};
use checks::fault::Fault;
use code::plan::{Counts, Plan};
use job::pack;
use receiver::run::run;
use sheet::closed::ClosedSheet;
use sheet::opened::OpenSheet;
use std::io;

const JOB: &[u8; 30] = b"R1 10k 12.50 30.00;C3 100n 4.2";

const COUNTS: Counts = Counts {
    data_count: 4,
    check_count: 3,
    row_len: 8,
};

const MESSAGE_LEN: usize = 32;

// Kept: the one line of `station`, since a crate for it would be no plainer.
fn print_refusal(rt: &HostRuntime, fault: impl Into<Fault>) -> io::Result<()> {
    println!(rt; "refused {}", fault.into())
}

fn print_plan(rt: &HostRuntime, plan: &Plan) -> io::Result<()> {
    println!(rt; "job       number {JOB_NUMBER}, {} bytes", JOB.len())?;
    println!(rt; "plan      {plan}")
}

// Kept: as the cutter lays rows, since a call for both would have to ask its callers for a whole message.
fn lay<'a>(plan: &Plan, message: &[u16], buffer: &'a mut [u16]) -> ClosedSheet<'a> {
    let mut sheet = OpenSheet::open(plan, buffer);
    for (number, row) in message.chunks(plan.row_len()).enumerate() {
        let _ = sheet.lay(number, row);
    }
    sheet.close()
}

fn cross(rt: &HostRuntime, plan: &Plan, sheet: &ClosedSheet) -> io::Result<()> {
    let job = job_numbered(JOB_NUMBER);
    let arrived = carry(rt.alloc(), plan, sheet)?;
    let message = [0; MESSAGE_LEN];
    let packet = [0; PACKET_LEN];
    let calls = calls_for(rt.alloc(), arrived.as_slice(), &message, &packet)?;
    let done = run(rt.alloc(), &ByteField {}, plan, job, calls.as_slice())?;
    print_all(rt, plan, sheet, done.as_slice())
}

fn main(rt: HostRuntime) -> io::Result<()> {
    let mut plan = Plan::new();
    if let Err(fault) = plan.make(&ByteField {}, COUNTS, &[0, 1, 2, 3], &[4, 5, 6]) {
        return print_refusal(&rt, fault);
    }
    print_plan(&rt, &plan)?;
    let mut message = [0; MESSAGE_LEN];
    if let Err(fault) = pack(&plan, JOB, &mut message) {
        return print_refusal(&rt, fault);
    }
    let mut buffer = [0; MESSAGE_LEN];
    let sheet = lay(&plan, &message, &mut buffer);
    let crossed = cross(&rt, &plan, &sheet);
    let _ = sheet.into_buffer();
    crossed
}
