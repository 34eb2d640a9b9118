// Why a call of the sheet layer is refused.
ghost use Rattle.std.specs.Prelude.{◌≡◌};
ghost use Rattle.sheet.specs.Faults.{sheet_named};

use checks::fault::{Fault, Layer};

// Each case carries its place.
#[derive(Clone, Copy, PartialEq, Debug)]
pub enum SheetFault {
    // The count that is wanted.
    Count(usize),
    // The sheet's field size.
    OtherField(usize),
    // The place in the row of a symbol that is no element.
    Symbol(usize),
    // The row or packet number that there is not.
    Number(usize),
}

// The fault as its reader sees it.
impl From<SheetFault> for Fault {
    ghost from_gives = { λ e r. r ≡ sheet_named e };

    fn from(fault: SheetFault) -> Fault {
        let (number, place) = match fault {
            SheetFault::Count(wanted) => (5, wanted),
            SheetFault::OtherField(size) => (6, size),
            SheetFault::Symbol(place) => (7, place),
            SheetFault::Number(number) => (8, number),
        };
        Fault {
            layer: Layer::Sheet,
            number,
            place,
        }
    }
}
