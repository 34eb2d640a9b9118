// Cuts what an input asks for.
ghost use Rattle.std.specs.Prelude.{◌≡◌, ◌*◌, ◌<◌, ◌≤◌, List, length, IfOk};
ghost use Rattle.std.specs.List.{AllByRecursion};
ghost use Rattle.code.specs.Plans.{view};
ghost use Rattle.code.specs.Faults.{plan_fault};
ghost use Rattle.job.specs.Faults.{job_fault};
ghost use Rattle.cutting.specs.Requests.{input_named};
ghost use Rattle.cutting.specs.Cutting.{all_packets};
ghost use Rattle.cutting.specs.Answers.{Answers, request_view_of, request_fault, request_packets, input_fault, input_packets};
ghost use Rattle.cutting.specs.declared.cut.CutError.TheVariants.{Refused, Memory};

use crate::packets::{Cutter, MOST_MESSAGE_SYMBOLS};
use crate::plans::counted_plan;
use crate::request::{FieldChoice, InputFault, Request, read_request};
use binary::{ByteField, NibbleField};
use checks::fault::Fault;
use code::fault::PlanFault;
use field::Field;
use job::fault::JobFault;
use job::pack;
use packet::Job;
use prime::PrimeField;
use std::alloc::{AllocError, Global};

// The number of the job that the cutter cuts.
pub const JOB_NUMBER: u16 = 1;

// Why no packets come out.
// Kept: refusals of three layers as one `Fault`, since a case for each would be no plainer to whoever writes them out.
#[derive(Clone, Copy, PartialEq, Debug)]
pub enum CutError {
    Refused(Fault),
    // There is no memory for the packets.
    Memory,
}

// Kept: a `From` for each layer, since one for all that become a fault would overlap that of `AllocError`.
impl From<InputFault> for CutError {
    ghost from_gives = { λ e r. r ≡ Refused (input_named e) };

    fn from(fault: InputFault) -> CutError {
        CutError::Refused(Fault::from(fault))
    }
}

impl From<PlanFault> for CutError {
    ghost from_gives = { λ e r. r ≡ Refused (plan_fault e) };

    fn from(fault: PlanFault) -> CutError {
        CutError::Refused(Fault::from(fault))
    }
}

impl From<JobFault> for CutError {
    ghost from_gives = { λ e r. r ≡ Refused (job_fault e) };

    fn from(fault: JobFault) -> CutError {
        CutError::Refused(Fault::from(fault))
    }
}

impl From<AllocError> for CutError {
    ghost from_gives = { λ e r. r ≡ Memory };

    fn from(_: AllocError) -> CutError {
        CutError::Memory
    }
}

// All packets of a job.
fn cut_request<F: Field>(heap: Global, field: &F, request: &Request) -> Result<Vec<u8>, CutError>
    ensures { Answers (request_fault (F.ops field.now) (request_view_of request.now)) (request_packets (F.ops field.now) (request_view_of request.now)) result }
{
    let plan = counted_plan(field, request.counts)?;
    // Kept: an array of which a part is used, since a vector can fail for want of memory where the job is to be refused.
    let mut room = [0; MOST_MESSAGE_SYMBOLS];
    let message = &mut room[0..plan.message_len()];
    pack(&plan, request.job, message)?;
    let job = Job {
        number: JOB_NUMBER,
        length: request.job.len() as u16,
    };
    let cutter = Cutter {
        field,
        plan: &plan,
        job,
    };
    Ok(cutter.cut_message(heap, message)?)
}

// The packets that an input of the cutter asks for, in order, nothing between.
pub fn cut_input(heap: Global, input: &[u8]) -> Result<Vec<u8>, CutError>
    ensures { Answers (input_fault input.now) (input_packets input.now) result }
{
    let request = read_request(input)?;
    // Kept: a match, since a closure cannot take fields of different types, and a macro for one use is no plainer.
    match request.field {
        FieldChoice::Byte => cut_request(heap, &ByteField {}, &request),
        FieldChoice::Nibble => cut_request(heap, &NibbleField {}, &request),
        FieldChoice::Prime => cut_request(heap, &PrimeField {}, &request),
    }
}
