// Why no job comes out of an input.
ghost use Rattle.std.specs.Prelude.{◌≡◌};
ghost use Rattle.joining.specs.Faults.{join_fault};
ghost use Rattle.joining.specs.declared.fault.JoinFault.TheVariants.{Receiver, Job};

use checks::fault::{Fault, Layer};
use job::fault::JobFault;
use receiver::fault::ReceiverFault;

// A fault of a layer below stays whole.
#[derive(Clone, Copy)]
pub enum JoinFault {
    // How many bytes there are, with no packet among them.
    NoPacket(usize),
    // The place in the header of a size of which there is no field.
    NoField(usize),
    Receiver(ReceiverFault),
    Job(JobFault),
}

// Kept: a `From` for each layer, since each has a case of its own.
impl From<ReceiverFault> for JoinFault {
    ghost from_gives = { λ e r. r ≡ Receiver e };

    fn from(fault: ReceiverFault) -> JoinFault {
        JoinFault::Receiver(fault)
    }
}

impl From<JobFault> for JoinFault {
    ghost from_gives = { λ e r. r ≡ Job e };

    fn from(fault: JobFault) -> JoinFault {
        JoinFault::Job(fault)
    }
}

// The fault as its reader sees it.
impl From<JoinFault> for Fault {
    ghost from_gives = { λ e r. r ≡ join_fault e };

    fn from(fault: JoinFault) -> Fault {
        let (number, place) = match fault {
            JoinFault::NoPacket(bytes) => (9, bytes),
            JoinFault::NoField(place) => (10, place),
            JoinFault::Receiver(fault) => return Fault::from(fault),
            JoinFault::Job(fault) => return Fault::from(fault),
        };
        Fault {
            layer: Layer::Input,
            number,
            place,
        }
    }
}
