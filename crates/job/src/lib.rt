// The bytes of a job as the symbols of a message.
#![tactic(auto)]

ghost use Rattle.std.specs.Prelude.{◌≡◌};
ghost use Rattle.code.specs.Plans.{view};
ghost use Rattle.job.specs.Calls.{capacity_of, Packing, Unpacking};

use crate::fault::JobFault;
use crate::order::{check_job, check_message};
use crate::spread::Spread;
use code::plan::Plan;

pub mod fault;
mod order;
mod spread;
#[cfg(test)]
mod tests;

// The most bytes of a job.
pub fn capacity(plan: &Plan) -> usize
    ensures { result ≡ capacity_of (view plan.now) }
{
    plan.message_len() / Spread::over(plan.size()).count
}

// Packs a job into a message: the symbols of its bytes, then zeros.
pub fn pack(plan: &Plan, job: &[u8], message: &mut [u16]) -> Result<(), JobFault>
    ensures { Packing plan.now job.now message.old message.new result }
{
    check_job(plan, job.len(), message.len())?;
    Spread::over(plan.size()).lay(job, message);
    Ok(())
}

// Unpacks a job of `len` bytes into the front of `job`.
pub fn unpack(plan: &Plan, message: &[u16], len: usize, job: &mut [u8]) -> Result<(), JobFault>
    ensures { Unpacking plan.now message.now len job.old job.new result }
{
    check_message(plan, message, len, job.len())?;
    Spread::over(plan.size()).lift(message, &mut job[..len]);
    Ok(())
}
