// Why a call of the job layer is refused.
ghost use Rattle.std.specs.Prelude.{◌≡◌};
ghost use Rattle.job.specs.Faults.{job_fault};

use checks::fault::{Fault, Layer};

// Each case carries its place.
#[derive(Clone, Copy, PartialEq, Debug)]
pub enum JobFault {
    // The count that is wanted.
    Count(usize),
    // The most bytes that a message holds.
    Capacity(usize),
    // The place, in the message, of a job symbol that is too large for its bits.
    Symbol(usize),
    // The place, in the message, of a symbol behind the job that is not 0.
    Rest(usize),
}

// The fault as its reader sees it.
impl From<JobFault> for Fault {
    ghost from_gives = { λ e r. r ≡ job_fault e };

    fn from(fault: JobFault) -> Fault {
        let (number, place) = match fault {
            JobFault::Count(wanted) => (5, wanted),
            JobFault::Capacity(most) => (15, most),
            JobFault::Symbol(place) => (16, place),
            JobFault::Rest(place) => (17, place),
        };
        Fault {
            layer: Layer::Job,
            number,
            place,
        }
    }
}
