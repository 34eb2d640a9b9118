// The cutter: what to cut comes on standard input, and its packets go to standard output, in order, nothing between.
// A refusal is one line there: `refused`, the layer, the number and the place.
#![tactic(auto)]

use cutting::cut::{CutError, cut_input};
use std::io;
use std::io::{Read, Write};

fn main(rt: HostRuntime) -> io::Result<()> {
    let mut input = Vec::new(rt.alloc());
    rt.stdin().read_to_end(&mut input)?;
    match cut_input(rt.alloc(), input.as_slice()) {
        Ok(packets) => rt.stdout().write_all(packets.as_slice()),
        Err(CutError::Refused(fault)) => println!(rt; "refused {fault}"),
        Err(CutError::Memory) => eprintln!(rt; "no memory for the packets"),
    }
}
