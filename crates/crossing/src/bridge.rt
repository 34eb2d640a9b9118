// The bridge: what is sent over it, what becomes of that by a stated pattern, and what is called on the other side.
use crate::JOB;
use binary::ByteField;
use code::plan::Plan;
use packet::Job;
use receiver::run::Call;
use sheet::closed::ClosedSheet;
use std::alloc::{AllocError, Global};

// What the bridge does with a packet.
#[derive(Clone, Copy)]
pub(crate) enum Bridge {
    Brings,
    Loses,
    // It comes once more than it was sent.
    Repeats,
    // The byte at that place comes with all its bits turned.
    Spoils(usize),
}

#[derive(Clone, Copy)]
pub(crate) enum Step {
    // The packet of that number, of the job of that number.
    Packet(usize, u16, Bridge),
    Read,
    Rebuild(usize),
}

pub(crate) const JOB_NUMBER: u16 = 7;

const OTHER_JOB: u16 = 8;

pub(crate) const PACKET_LEN: usize = 28;

pub(crate) const STEPS: [Step; 15] = [
    Step::Packet(0, JOB_NUMBER, Bridge::Brings),
    Step::Packet(1, JOB_NUMBER, Bridge::Loses),
    Step::Packet(2, JOB_NUMBER, Bridge::Brings),
    Step::Packet(2, JOB_NUMBER, Bridge::Repeats),
    Step::Read,
    Step::Packet(3, JOB_NUMBER, Bridge::Spoils(1)),
    Step::Packet(3, OTHER_JOB, Bridge::Brings),
    Step::Packet(4, JOB_NUMBER, Bridge::Brings),
    Step::Packet(5, JOB_NUMBER, Bridge::Loses),
    Step::Packet(6, JOB_NUMBER, Bridge::Brings),
    Step::Packet(3, JOB_NUMBER, Bridge::Spoils(25)),
    Step::Packet(3, JOB_NUMBER, Bridge::Brings),
    Step::Read,
    Step::Rebuild(1),
    Step::Rebuild(7),
];

// A job of the panel's length.
pub(crate) fn job_numbered(number: u16) -> Job {
    Job {
        number,
        length: JOB.len() as u16,
    }
}

// Adds what comes over the bridge of one packet.
fn carry_packet(
    plan: &Plan,
    sheet: &ClosedSheet,
    job: Job,
    number: usize,
    bridge: Bridge,
    arrived: &mut Vec<u8>,
) -> Result<(), AllocError> {
    let mut packet = [0; PACKET_LEN];
    if sheet
        .cut(plan, &ByteField {}, job, number, &mut packet)
        .is_err()
    {
        return Ok(());
    }
    match bridge {
        Bridge::Loses => return Ok(()),
        Bridge::Spoils(place) if place < PACKET_LEN => packet[place] ^= 255,
        _ => {}
    }
    arrived.extend_from_slice(&packet)
}

// The packets that arrive, one behind the other.
pub(crate) fn carry(heap: Global, plan: &Plan, sheet: &ClosedSheet) -> Result<Vec<u8>, AllocError> {
    let mut arrived = Vec::new(heap);
    for step in STEPS {
        if let Step::Packet(n, number, bridge) = step {
            carry_packet(plan, sheet, job_numbered(number), n, bridge, &mut arrived)?;
        }
    }
    Ok(arrived)
}

// The calls on the receiver: each packet that arrives is offered, and the readings and rebuilds go into these buffers.
pub(crate) fn calls_for<'a>(
    heap: Global,
    arrived: &'a [u8],
    message: &'a [u16],
    packet: &'a [u8],
) -> Result<Vec<Call<'a>>, AllocError> {
    let mut calls = Vec::new(heap);
    let mut packets = arrived.chunks(PACKET_LEN);
    for step in STEPS {
        match step {
            Step::Packet(_, _, Bridge::Loses) => {}
            Step::Packet(_, _, _) => {
                if let Some(packet) = packets.next() {
                    calls.push(Call::Offer(packet))?;
                }
            }
            Step::Read => calls.push(Call::Read(message))?,
            Step::Rebuild(number) => calls.push(Call::Rebuild(number, packet))?,
        }
    }
    Ok(calls)
}
