// The operator's panel, on standard error.
use checks::fault::Fault;
use code::plan::Plan;
use joining::heading::Heading;
use receiver::fault::ReceiverFault;
use std::io;

// How many packets are accepted, and how many were refused.
#[derive(Clone, Copy)]
pub(crate) struct Tally {
    pub(crate) accepted: usize,
    pub(crate) refused: usize,
}

// Why no job comes out.
pub(crate) fn print_no_job(rt: &HostRuntime, fault: impl Into<Fault>) -> io::Result<()> {
    eprintln!(rt; "no job    {}", fault.into())
}

pub(crate) fn print_heading(rt: &HostRuntime, heading: Heading) -> io::Result<()> {
    eprintln!(rt; "plan      {heading}")?;
    eprintln!(rt;
        "job       number {}, {} bytes",
        heading.job.number, heading.job.length
    )
}

// `place` counts the packets of the input from 0.
pub(crate) fn print_refusal(
    rt: &HostRuntime,
    place: usize,
    fault: ReceiverFault,
) -> io::Result<()> {
    eprintln!(rt;
        "refused   {}, packet {place} of the input",
        Fault::from(fault)
    )
}

// Which data packet is missing, and whether others make up for it.
// Kept: a bool beside the number, since a packet can be missing of a settled message and of one that is not.
fn print_missing(rt: &HostRuntime, missing: Option<u16>, is_settled: bool) -> io::Result<()> {
    match missing {
        Some(number) if is_settled => {
            eprintln!(rt; "missing   data packet {number}, others make up for it")
        }
        Some(number) => eprintln!(rt; "missing   data packet {number}"),
        None => eprintln!(rt; "missing   none"),
    }
}

pub(crate) fn print_tally(
    rt: &HostRuntime,
    plan: &Plan,
    tally: Tally,
    missing: Option<u16>,
) -> io::Result<()> {
    let is_settled = plan.settled_by(tally.accepted);
    eprintln!(rt; "accepted  {} packets", tally.accepted)?;
    eprintln!(rt; "refused   {} packets", tally.refused)?;
    print_missing(rt, missing, is_settled)?;
    if is_settled {
        eprintln!(rt; "settled   yes")
    } else {
        eprintln!(rt; "settled   no, {} packets are wanted", plan.data_count())
    }
}
