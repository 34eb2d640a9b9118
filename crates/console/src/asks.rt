// What a line asks for.
use crate::calls::{Call, Nodes, PlanCall, ReceiverCall};
use crate::reasons::Reason;
use crate::words::{bytes, counts, field, filled, job, number, symbols};
use std::alloc::Global;

// The calls on a receiver.
fn receiver_call(heap: Global, words: &[&str]) -> Result<Call, Reason> {
    Ok(Call::Receive(match words {
        ["offer", f, packet] => ReceiverCall::Offer(bytes(heap, packet)?, field(f)?),
        ["read", f, count, fill] => ReceiverCall::Read(filled(heap, count, fill)?, field(f)?),
        ["rebuild", f, i, count, fill] => {
            ReceiverCall::Rebuild(filled(heap, count, fill)?, field(f)?, number(i)?)
        }
        ["missing"] => ReceiverCall::Missing,
        _ => return Err(Reason::OtherWords),
    }))
}

// The call that words ask for: its name, and what it takes.
fn call_in(heap: Global, words: &[&str]) -> Result<Call, Reason> {
    Ok(match words {
        ["plan", f, m, r, len, data, checks] => Call::Make(PlanCall {
            counts: counts(m, r, len)?,
            nodes: Nodes::Given(symbols(heap, data)?, symbols(heap, checks)?),
            field: field(f)?,
        }),
        ["standard", f, m, r, len] => Call::Make(PlanCall {
            counts: counts(m, r, len)?,
            nodes: Nodes::Standard,
            field: field(f)?,
        }),
        ["nodes"] => Call::Nodes,
        ["open", id, length] => Call::Open(job(id, length)?),
        ["offer" | "read" | "rebuild" | "missing", ..] => receiver_call(heap, words)?,
        ["sheet", count, fill] => Call::Sheet(filled(heap, count, fill)?),
        ["lay", j, row] => Call::Lay(number(j)?, symbols(heap, row)?),
        ["close"] => Call::Close,
        ["cut", f, id, length, i, count, fill] => Call::Cut(
            job(id, length)?,
            field(f)?,
            number(i)?,
            filled(heap, count, fill)?,
        ),
        ["apart"] => Call::Apart,
        ["pack", job, count, fill] => Call::Pack(bytes(heap, job)?, filled(heap, count, fill)?),
        ["unpack", message, length, count, fill] => Call::Unpack(
            symbols(heap, message)?,
            number(length)?,
            filled(heap, count, fill)?,
        ),
        // Kept: the names once more, to tell other words behind a name from no call.
        ["plan" | "standard" | "nodes" | "open" | "sheet" | "lay", ..]
        | ["close" | "cut" | "apart" | "pack" | "unpack", ..] => return Err(Reason::OtherWords),
        _ => return Err(Reason::NoSuchCall),
    })
}

// What a line asks for: nothing if it is empty or a remark. The words of a call are parted by single spaces.
pub fn read_line(heap: Global, line: &[u8]) -> Result<Option<Call>, Reason> {
    if line.is_empty() || line.starts_with(b"#") {
        return Ok(None);
    }
    let text = std::str::from_utf8(line).map_err(|_| Reason::NoText)?;
    let call = text.strip_prefix("> ").ok_or(Reason::NoMark)?;
    let words: Vec<&str> = call.split(' ').collect(heap)?;
    Ok(Some(call_in(heap, words.as_slice())?))
}
