// The joiner: packets come on standard input as the cutter writes them, some lost, repeated or damaged.
// The job goes to standard output, and a panel for the operator to standard error.
#![tactic(auto)]

mod panel;

use binary::{ByteField, NibbleField};
use code::plan::Plan;
use cutting::request::FieldChoice;
use field::Field;
use joining::fault::JoinFault;
use joining::finds::{first_packet, told_len};
use joining::heading::Heading;
use joining::jobs::read_job;
use packet::Job;
use panel::{Tally, print_heading, print_no_job, print_refusal, print_tally};
use prime::PrimeField;
use receiver::receiver::Receiver;
use receiver::shelf::SHELF_LEN;
use std::io;
use std::io::{Read, Write};

// Offers the packets, which stand one behind the other, each as long as the first tells.
fn offer_all<F: Field>(
    rt: &HostRuntime,
    field: &F,
    receiver: &mut Receiver,
    packets: &[u8],
) -> io::Result<Tally> {
    let mut accepted = 0;
    // Kept: counted by hand as they come, since a `try_fold` would add one by hand too.
    let mut refused = 0usize;
    for (place, packet) in packets.chunks(told_len(packets)).enumerate() {
        match receiver.offer(field, packet) {
            Ok(count) => accepted = count,
            Err(fault) => {
                print_refusal(rt, place, fault)?;
                refused = refused.saturating_add(1);
            }
        }
    }
    Ok(Tally { accepted, refused })
}

// The job goes out, or the panel says why not.
fn write_job<F: Field>(
    rt: &HostRuntime,
    field: &F,
    plan: &Plan,
    receiver: &Receiver,
    len: usize,
) -> io::Result<()> {
    // Kept: an array of which a part is used, since a vector can fail for want of memory, and then the panel would not say why.
    let mut room = [0u8; SHELF_LEN];
    if let Err(fault) = read_job(field, plan, receiver, len, &mut room) {
        return print_no_job(rt, fault);
    }
    eprintln!(rt; "joined    {len} bytes")?;
    match room.get(..len) {
        Some(job) => rt.stdout().write_all(job),
        None => Ok(()),
    }
}

fn receive<F: Field>(
    rt: &HostRuntime,
    field: &F,
    plan: &Plan,
    job: Job,
    packets: &[u8],
) -> io::Result<()> {
    let mut receiver = Receiver::open(plan, job);
    let tally = offer_all(rt, field, &mut receiver, packets)?;
    print_tally(rt, plan, tally, receiver.missing())?;
    write_job(rt, field, plan, &receiver, usize::from(job.length))
}

fn join_over<F: Field>(
    rt: &HostRuntime,
    field: &F,
    heading: Heading,
    packets: &[u8],
) -> io::Result<()> {
    match heading.plan(field) {
        Ok(plan) => receive(rt, field, &plan, heading.job, packets),
        Err(fault) => print_no_job(rt, fault),
    }
}

// Joins packets of which the first stands in front.
fn join(rt: &HostRuntime, packets: &[u8]) -> io::Result<()> {
    let heading = Heading::from(packets);
    print_heading(rt, heading)?;
    // Kept: a match, since a closure cannot take fields of different types, and a macro for one use is no plainer.
    match heading.field() {
        Ok(FieldChoice::Byte) => join_over(rt, &ByteField {}, heading, packets),
        Ok(FieldChoice::Nibble) => join_over(rt, &NibbleField {}, heading, packets),
        Ok(FieldChoice::Prime) => join_over(rt, &PrimeField {}, heading, packets),
        Err(fault) => print_no_job(rt, fault),
    }
}

fn main(rt: HostRuntime) -> io::Result<()> {
    let mut input = Vec::new(rt.alloc());
    rt.stdin().read_to_end(&mut input)?;
    let bytes = input.as_slice();
    match first_packet(bytes) {
        Some(passed) => {
            eprintln!(rt; "passed    {passed} bytes in front of the first packet")?;
            join(&rt, &bytes[passed..])
        }
        None => print_no_job(&rt, JoinFault::NoPacket(bytes.len())),
    }
}
