// Why a call of the packet layer is refused.
ghost use Rattle.std.specs.Prelude.{◌≡◌};
ghost use Rattle.packet.specs.Faults.{packet_fault};

use checks::fault::{Fault, Layer};

// Each case carries its place.
#[derive(Clone, Copy, PartialEq, Debug)]
pub enum PacketFault {
    // The count that is wanted: symbols of a row, or bytes of a buffer.
    Count(usize),
    // The number of bytes.
    Length(usize),
    // Where in the header.
    Layout(usize),
}

// The fault as its reader sees it.
impl From<PacketFault> for Fault {
    ghost from_gives = { λ e r. r ≡ packet_fault e };

    fn from(fault: PacketFault) -> Fault {
        let (number, place) = match fault {
            PacketFault::Count(wanted) => (5, wanted),
            PacketFault::Length(bytes) => (9, bytes),
            PacketFault::Layout(place) => (10, place),
        };
        Fault {
            layer: Layer::Packet,
            number,
            place,
        }
    }
}
