// What the console answers: one line to each call.
use crate::reasons::Refusal;
use code::plan::Plan;
use dialog::hex::{bytes_text, symbols_text};
use std::io;
use std::io::Write;

#[derive(Drop)]
pub enum Answer {
    Done,
    Count(usize),
    Symbols(Vec<u16>),
    Bytes(Vec<u8>),
    // The length of a packet, and the buffer that it was written into.
    // Kept: a length beside a buffer, since a longer buffer is written out whole.
    Packet(usize, Vec<u8>),
    Nodes(Plan),
    Missing(Option<u16>),
}

// Ends a line by a word of hex.
fn end_by(rt: &HostRuntime, word: Vec<u8>) -> io::Result<()> {
    rt.stdout().write_all(word.as_slice())?;
    println!(rt; "")
}

fn say_plan(rt: &HostRuntime, plan: &Plan) -> io::Result<()> {
    let m = plan.data_count();
    let r = plan.check_count();
    let len = plan.row_len();
    let q = plan.size();
    let (data, checks) = plan.nodes().split_at(m);
    print!(rt; "= ok {m} {r} {len} {q} ")?;
    let data = symbols_text(rt.alloc(), data)?;
    rt.stdout().write_all(data.as_slice())?;
    print!(rt; " ")?;
    end_by(rt, symbols_text(rt.alloc(), checks)?)
}

// Writes the line of an answer.
pub fn say(rt: &HostRuntime, answer: Result<Answer, Refusal>) -> io::Result<()> {
    match answer {
        Ok(Answer::Done) => println!(rt; "= ok"),
        Ok(Answer::Count(count)) => println!(rt; "= ok {count}"),
        Ok(Answer::Symbols(symbols)) => {
            print!(rt; "= ok ")?;
            end_by(rt, symbols_text(rt.alloc(), symbols.as_slice())?)
        }
        Ok(Answer::Bytes(bytes)) => {
            print!(rt; "= ok ")?;
            end_by(rt, bytes_text(rt.alloc(), bytes.as_slice())?)
        }
        Ok(Answer::Packet(len, buffer)) => {
            print!(rt; "= ok {len} ")?;
            end_by(rt, bytes_text(rt.alloc(), buffer.as_slice())?)
        }
        Ok(Answer::Nodes(plan)) => say_plan(rt, &plan),
        Ok(Answer::Missing(Some(number))) => println!(rt; "= some {number}"),
        Ok(Answer::Missing(None)) => println!(rt; "= none"),
        Err(Refusal::Fault(fault)) => println!(rt; "= fault {fault}"),
        Err(Refusal::Altered(fault)) => println!(rt; "= fault {fault} altered"),
        Err(Refusal::Error(reason)) => println!(rt; "= error {reason}"),
        Err(Refusal::Memory(error)) => Err(io::Error::from(error)),
    }
}
