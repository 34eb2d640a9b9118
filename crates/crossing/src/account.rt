// The account of what was done: a line for each packet and each call.
// Kept, here and in `bridge`: plan and sheet one by one, since a sheet is cut by the plan that the cut names.
use crate::JOB;
use crate::bridge::{Bridge, JOB_NUMBER, PACKET_LEN, STEPS, Step, job_numbered};
use binary::ByteField;
use checks::fault::Fault;
use code::plan::Plan;
use job::unpack;
use receiver::fault::ReceiverFault;
use receiver::run::Done;
use sheet::closed::ClosedSheet;
use std::io;

fn reason(fault: ReceiverFault) -> &'static str {
    match fault {
        ReceiverFault::Packet(_) => "its bytes are not laid out as a packet",
        ReceiverFault::Number(_) => "the plan has no packet of that number",
        ReceiverFault::OtherJob(_) => "it is of another job",
        ReceiverFault::Repeated(_) => "it is accepted already",
        ReceiverFault::Contradicts(_) => "its row is not the message's",
        ReceiverFault::TooFew(_) => "too few packets are accepted",
        _ => "the call does not fit the plan",
    }
}

fn print_refusal(rt: &HostRuntime, fault: ReceiverFault) -> io::Result<()> {
    println!(rt; "refused {}: {}", Fault::from(fault), reason(fault))
}

// What was sent, and what the bridge did with it.
fn print_packet(rt: &HostRuntime, number: usize, job: u16, bridge: Bridge) -> io::Result<()> {
    match bridge {
        Bridge::Brings if job == JOB_NUMBER => print!(rt; "sent      packet {number}, "),
        Bridge::Brings => print!(rt; "sent      packet {number} of job {job}, "),
        Bridge::Loses => println!(rt; "sent      packet {number}, lost"),
        Bridge::Repeats => print!(rt; "repeated  packet {number}, "),
        Bridge::Spoils(place) => {
            print!(rt; "sent      packet {number}, spoilt at byte {place}, ")
        }
    }
}

fn print_offered(
    rt: &HostRuntime,
    plan: &Plan,
    answer: Result<usize, ReceiverFault>,
) -> io::Result<()> {
    match answer {
        Ok(count) => {
            println!(rt; "accepted, {count} so far")?;
            if count == plan.data_count() {
                println!(rt; "settled   any {count} packets give the job back")?;
            }
            Ok(())
        }
        Err(fault) => print_refusal(rt, fault),
    }
}

// Whether the message that was read gives the job back.
fn print_read(rt: &HostRuntime, plan: &Plan, message: &[u16]) -> io::Result<()> {
    let mut job = [0; JOB.len()];
    match unpack(plan, message, JOB.len(), &mut job) {
        Ok(()) if &job == JOB => println!(rt; "the job came back, all {} bytes of it", JOB.len()),
        Ok(()) => println!(rt; "another job came back"),
        Err(fault) => println!(rt; "refused {}", Fault::from(fault)),
    }
}

// Whether the packet that was rebuilt is the one that is cut from the sheet.
fn print_rebuilt(
    rt: &HostRuntime,
    plan: &Plan,
    sheet: &ClosedSheet,
    number: usize,
    packet: &[u8],
) -> io::Result<()> {
    let job = job_numbered(JOB_NUMBER);
    let mut cut = [0; PACKET_LEN];
    if sheet
        .cut(plan, &ByteField {}, job, number, &mut cut)
        .is_ok()
        && packet == cut.as_slice()
    {
        println!(rt; "the same {PACKET_LEN} bytes that were sent")
    } else {
        println!(rt; "other bytes than were sent")
    }
}

fn print_step(rt: &HostRuntime, step: Step) -> io::Result<()> {
    match step {
        Step::Packet(number, job, bridge) => print_packet(rt, number, job, bridge),
        Step::Read => print!(rt; "read      "),
        Step::Rebuild(number) => print!(rt; "rebuilt   packet {number}, "),
    }
}

fn print_answer(
    rt: &HostRuntime,
    plan: &Plan,
    sheet: &ClosedSheet,
    step: Step,
    done: &Done,
) -> io::Result<()> {
    match (step, done) {
        (_, Done::Offered(answer)) => print_offered(rt, plan, *answer),
        (_, Done::Filled(Ok(()), message)) => print_read(rt, plan, message.as_slice()),
        (Step::Rebuild(number), Done::Rebuilt(Ok(_), packet)) => {
            print_rebuilt(rt, plan, sheet, number, packet.as_slice())
        }
        (_, Done::Rebuilt(Ok(_), _)) => Ok(()),
        (_, Done::Filled(Err(fault), _)) => print_refusal(rt, *fault),
        (_, Done::Rebuilt(Err(fault), _)) => print_refusal(rt, *fault),
    }
}

// Of a packet that is lost nothing is answered.
pub(crate) fn print_all(
    rt: &HostRuntime,
    plan: &Plan,
    sheet: &ClosedSheet,
    done: &[Done],
) -> io::Result<()> {
    let mut answers = done.iter();
    for step in STEPS {
        print_step(rt, step)?;
        if let Step::Packet(_, _, Bridge::Loses) = step {
            continue;
        }
        if let Some(answer) = answers.next() {
            print_answer(rt, plan, sheet, step, answer)?;
        }
    }
    Ok(())
}
