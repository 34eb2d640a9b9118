// Why a call of the plan layer is refused.
ghost use Rattle.std.specs.Prelude.{◌≡◌};
ghost use Rattle.code.specs.Faults.{plan_fault};

use checks::fault::{Fault, Layer};

// Each case carries its place.
#[derive(Clone, Copy, PartialEq, Debug)]
pub enum PlanFault {
    // m, r or L is out of range: which of them, counted from 0.
    Range(usize),
    // More packets than nodes to choose from: how many there are.
    TooMany(usize),
    // The position of a node that is no element, data nodes first.
    NotElement(usize),
    // The position of a node that stands earlier too, data nodes first.
    Repeated(usize),
    // The count that is wanted.
    Count(usize),
    // The plan's field size.
    OtherField(usize),
    // The packet number that the plan has not.
    Number(usize),
}

// The fault as its reader sees it.
impl From<PlanFault> for Fault {
    ghost from_gives = { λ e r. r ≡ plan_fault e };

    fn from(fault: PlanFault) -> Fault {
        let (number, place) = match fault {
            PlanFault::Range(which) => (1, which),
            PlanFault::TooMany(choice) => (2, choice),
            PlanFault::NotElement(position) => (3, position),
            PlanFault::Repeated(position) => (4, position),
            PlanFault::Count(wanted) => (5, wanted),
            PlanFault::OtherField(size) => (6, size),
            PlanFault::Number(number) => (8, number),
        };
        Fault {
            layer: Layer::Plan,
            number,
            place,
        }
    }
}
