// The job that a receiver gives: its message is read, and unpacked.
ghost use Rattle.code.specs.Plans.{view};
ghost use Rattle.joining.specs.Jobs.{Joined};

use crate::fault::JoinFault;
use code::plan::Plan;
use field::Field;
use job::unpack;
use receiver::receiver::Receiver;
use receiver::shelf::SHELF_LEN;

// Writes the job of `len` bytes that a receiver of this plan gives into the front of `job`.
pub fn read_job<F: Field>(
    field: &F,
    plan: &Plan,
    receiver: &Receiver,
    len: usize,
    job: &mut [u8],
) -> Result<(), JoinFault>
    ensures { Joined (F.ops field.now) (view plan.now) receiver.now len
        job.old job.new result }
{
    // Kept: an array of which a part is used, since a vector would need one more case in `JoinFault`, for want of memory.
    let mut room = [0; SHELF_LEN];
    let message = &mut room[0..plan.message_len()];
    receiver.read(field, message)?;
    unpack(plan, message, len, job)?;
    Ok(())
}
