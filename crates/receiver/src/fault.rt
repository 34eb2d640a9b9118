// Why a call of the receiver is refused. A fault of the packet layer stays whole.
ghost use Rattle.std.specs.Prelude.{◌≡◌};
ghost use Rattle.receiver.specs.Faults.{receiver_fault};
ghost use Rattle.receiver.specs.declared.fault.ReceiverFault.TheVariants.{Packet};

use checks::fault::{Fault, Layer};
use packet::fault::PacketFault;

// Each case carries its place.
#[derive(Clone, Copy, PartialEq, Debug)]
pub enum ReceiverFault {
    Packet(PacketFault),
    // The count that is wanted.
    Count(usize),
    // The plan's field size.
    OtherField(usize),
    // The place in the row of a symbol that is no element.
    Symbol(usize),
    // The packet number that the plan has not.
    Number(usize),
    // The byte of the first number of the header that is not this job's.
    OtherJob(usize),
    // The number, which is accepted with this same row.
    Repeated(usize),
    // The place of the first symbol that differs from the known row.
    Contradicts(usize),
    // How many packets are accepted.
    TooFew(usize),
}

impl From<PacketFault> for ReceiverFault {
    ghost from_gives = { λ e r. r ≡ Packet e };

    fn from(fault: PacketFault) -> ReceiverFault {
        ReceiverFault::Packet(fault)
    }
}

// The fault as its reader sees it.
impl From<ReceiverFault> for Fault {
    ghost from_gives = { λ e r. r ≡ receiver_fault e };

    fn from(fault: ReceiverFault) -> Fault {
        let (number, place) = match fault {
            ReceiverFault::Packet(fault) => return Fault::from(fault),
            ReceiverFault::Count(wanted) => (5, wanted),
            ReceiverFault::OtherField(size) => (6, size),
            ReceiverFault::Symbol(place) => (7, place),
            ReceiverFault::Number(number) => (8, number),
            ReceiverFault::OtherJob(byte) => (11, byte),
            ReceiverFault::Repeated(number) => (12, number),
            ReceiverFault::Contradicts(place) => (13, place),
            ReceiverFault::TooFew(count) => (14, count),
        };
        Fault {
            layer: Layer::Receiver,
            number,
            place,
        }
    }
}
