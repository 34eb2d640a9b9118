// Cuts the jobs that standard input lists, a job a line: the field byte, m, r, L and the job in hex, and prints each packet in hex.
// The files `stdin` and `stdout` beside it were made by other software (tools/vectors).
#![tactic(auto)]

use cutting::cut::{CutError, cut_input};
use packet::{HEADER_LEN, ROW_COUNT_AT, word_at};
use std::alloc::{AllocError, Global};
use std::io;
use std::io::{BufRead, BufReader};

// A digit of base sixteen, or nothing for any other character.
// Kept, with its writing of hex: `dialog` reads and writes a word as a whole, which takes memory for one more copy of it.
fn digit(c: u8) -> Option<u8> {
    match c {
        b'0'..=b'9' => Some(c - b'0'),
        b'a'..=b'f' => Some(c - b'a' + 10),
        _ => None,
    }
}

// The bytes that the digits of a line write, two a byte; the parts of a line are not told apart.
fn line_bytes(heap: Global, line: &str) -> Result<Vec<u8>, AllocError> {
    let mut bytes = Vec::new(heap);
    let mut high = None;
    for low in line.bytes().filter_map(digit) {
        high = match high {
            None => Some(low),
            Some(first) => {
                bytes.push((first & 15) * 16 + (low & 15))?;
                None
            }
        };
    }
    Ok(bytes)
}

fn print_packet(rt: &HostRuntime, packet: &[u8]) -> io::Result<()> {
    for b in packet {
        print!(rt; "{b:02x}")?;
    }
    println!(rt; "")
}

// All packets of a job have the length that the first header tells.
fn print_packets(rt: &HostRuntime, packets: &[u8]) -> io::Result<()> {
    let len = HEADER_LEN + usize::from(word_at(packets, ROW_COUNT_AT));
    for packet in packets.chunks(len) {
        print_packet(rt, packet)?;
    }
    Ok(())
}

fn cut_line(rt: &HostRuntime, line: &str) -> io::Result<()> {
    let input = line_bytes(rt.alloc(), line)?;
    match cut_input(rt.alloc(), input.as_slice()) {
        Ok(packets) => print_packets(rt, packets.as_slice()),
        Err(CutError::Refused(fault)) => println!(rt; "refused {fault}"),
        Err(CutError::Memory) => eprintln!(rt; "no memory for the packets"),
    }
}

fn main(rt: HostRuntime) -> io::Result<()> {
    for line in BufReader::new(rt.alloc(), rt.stdin())?.lines(rt.alloc()) {
        cut_line(&rt, line?.as_str())?;
    }
    Ok(())
}
