// Whole runs: calls that were written down, made one after the other on a new receiver.
ghost use Rattle.std.specs.Prelude.{◌≡◌};
ghost use Rattle.code.specs.Plans.{view};
ghost use Rattle.receiver.specs.Calls.{MakesOr, Replayed};
ghost use Rattle.receiver.specs.Receivers.{Keeps};

use crate::fault::ReceiverFault;
use crate::receiver::Receiver;
use code::plan::Plan;
use field::Field;
use packet::Job;
use std::alloc::{AllocError, Global};

// A call, with what its buffer holds before.
#[derive(Clone, Copy)]
pub enum Call<'a> {
    Offer(&'a [u8]),
    Read(&'a [u16]),
    Rebuild(usize, &'a [u8]),
}

// What a call answered, and what its buffer holds after.
#[derive(Drop)]
pub enum Done {
    Offered(Result<usize, ReceiverFault>),
    Filled(Result<(), ReceiverFault>, Vec<u16>),
    Rebuilt(Result<usize, ReceiverFault>, Vec<u8>),
}

// Makes one call. Where memory is wanting the receiver is as before.
fn make<F: Field>(
    heap: Global,
    field: &F,
    receiver: &mut Receiver,
    call: Call,
) -> Result<Done, AllocError>
    ensures answers { MakesOr (F.ops field.now) receiver.old call.entry result receiver.new }
    ensures leaves { Keeps receiver.old receiver.new }
{
    match call {
        Call::Offer(bytes) => Ok(Done::Offered(receiver.offer(field, bytes))),
        Call::Read(before) => {
            let mut buffer = Vec::from_slice(heap, before)?;
            let answer = receiver.read(field, buffer.as_mut_slice());
            Ok(Done::Filled(answer, buffer))
        }
        Call::Rebuild(number, before) => {
            let mut buffer = Vec::from_slice(heap, before)?;
            let answer = receiver.rebuild(field, number, buffer.as_mut_slice());
            Ok(Done::Rebuilt(answer, buffer))
        }
    }
}

// Opens a receiver, makes the calls in their order, and hands back what each answered and left.
pub fn run<F: Field>(
    heap: Global,
    field: &F,
    plan: &Plan,
    job: Job,
    calls: &[Call],
) -> Result<Vec<Done>, AllocError>
    ensures { Replayed (F.ops field.now) (view plan.now) job calls.now result }
{
    let mut receiver = Receiver::open(plan, job);
    let mut done = Vec::new(heap);
    for call in calls {
        done.push(make(heap, field, &mut receiver, *call)?)?;
    }
    Ok(done)
}
