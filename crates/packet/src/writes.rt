// Writing a packet.
ghost use Rattle.std.specs.Prelude.{◌≡◌, ℕ, ◌*◌, ◌≤◌, length};
ghost use Rattle.code.specs.Plans.{view};
ghost use Rattle.packet.specs.Bytes.{symbol_bytes, row_bytes, low_bytes};
ghost use Rattle.packet.specs.Layout.{numbers, row_count, packet_length};
ghost use Rattle.packet.specs.Writing.{Lays, Writes};

use crate::fault::PacketFault;
use crate::reads::symbol_bytes;
use crate::{HEADER_LEN, Job, MARK, MARK_AT, NUMBER_AT};
use code::plan::Plan;

// The count of a row's bytes.
fn row_count(plan: &Plan) -> usize
    ensures { result ≡ row_count (view plan.now) }
{
    plan.row_len() * symbol_bytes(plan.size())
}

// The bytes of a packet of this plan.
pub fn packet_len(plan: &Plan) -> usize
    ensures { result ≡ packet_length (view plan.now) }
{
    HEADER_LEN + row_count(plan)
}

// The numbers of a header, in their order.
// Kept: `as`, which is proved to lose nothing, where `try_from` would answer an error that can't come.
fn header_numbers(plan: &Plan, job: Job, number: u16) -> [u16; 9]
    ensures { result ≡ numbers (view plan.now) job number }
{
    [
        number,
        plan.data_count() as u16,
        plan.check_count() as u16,
        plan.row_len() as u16,
        (plan.size() - 1) as u16,
        job.number,
        job.length,
        HEADER_LEN as u16,
        row_count(plan) as u16,
    ]
}

// Writes the low `WIDTH` bytes of each number, the high one first.
// Kept: by index, since after a loop over `chunks_exact_mut` a proof knows no byte that it wrote.
#[tactic(auto, using(crate::proofs::Writing::low_bytes_more))]
fn write_numbers<const WIDTH: usize>(numbers: &[u16], out: &mut [u8])
    requires narrow { (1 ≤ WIDTH) × (WIDTH ≤ 2) }
    requires fits { length out.old ≡ length numbers.now * WIDTH }
    ensures { out.new ≡ low_bytes WIDTH numbers.now }
{
    for (i, number) in numbers.iter().enumerate() {
        let start = i * WIDTH;
        out[start..start + WIDTH].copy_from_slice(&number.to_be_bytes()[2 - WIDTH..]);
    }
}

// Kept: a choice of the width for the whole row, since one that is read at each symbol was tried: 370 ns a packet, not 10.
fn write_row(size: u32, row: &[u16], out: &mut [u8])
    requires fits { length out.old ≡ length row.now * symbol_bytes size }
    ensures { out.new ≡ row_bytes size row.now }
{
    if symbol_bytes(size) == 2 {
        write_numbers::<2>(row, out)
    } else {
        write_numbers::<1>(row, out)
    }
}

// Writes the packet in front of `out`, which has room for it.
// Kept: plan, job and number one by one, since a struct for this and one more private call is no plainer.
fn lay(plan: &Plan, job: Job, number: u16, row: &[u16], out: &mut [u8])
    requires fits { length row.now ≡ (view plan.now).L }
    requires within { packet_length (view plan.now) ≤ length out.old }
    ensures { Lays (view plan.now) job number row.now out.old out.new }
{
    let len = packet_len(plan);
    out[MARK_AT..NUMBER_AT].copy_from_slice(&MARK);
    let numbers = header_numbers(plan, job, number);
    write_numbers::<2>(&numbers, &mut out[NUMBER_AT..HEADER_LEN]);
    write_row(plan.size(), row, &mut out[HEADER_LEN..len]);
}

// Writes a packet in front of `out`, alters nothing behind it, and answers its length.
pub fn write(
    plan: &Plan,
    job: Job,
    number: u16,
    row: &[u16],
    out: &mut [u8],
) -> Result<usize, PacketFault>
    ensures { Writes (view plan.now) job number row.now out.old result out.new }
{
    if row.len() != plan.row_len() {
        return Err(PacketFault::Count(plan.row_len()));
    }
    let len = packet_len(plan);
    if out.len() < len {
        return Err(PacketFault::Count(len));
    }
    lay(plan, job, number, row, out);
    Ok(len)
}
