// A receiver: what came of one job.
ghost use Rattle.std.specs.Prelude.{◌≡◌, ℕ, ◌+◌, ◌*◌, ◌<◌, ◌≤◌, min, length};
ghost use Rattle.checks.specs.Checks.{at};
ghost use Rattle.code.specs.Nodes.{Elements, Apart};
ghost use Rattle.code.specs.Plans.{view};
ghost use Rattle.receiver.specs.Shelves.{shelved};

use crate::shelf::Shelf;
use code::plan::{MOST_NODES, Plan};
use packet::Job;

pub mod asks;
mod keeps;
mod knows;
mod offers;
mod reads;

// The accepted numbers stand in the order in which they came, and the rows of the first m of them on the shelf.
// Rows accepted later are not kept: they are the message's, over whatever field a call names.
// Kept: an array beside its count, since a receiver is copied and has no heap on the device.
#[derive(Clone, Copy)]
pub struct Receiver {
    plan: Plan,
    job: Job,
    shelf: Shelf,
    numbers: [u16; MOST_NODES],
    count: usize,
    ghost places: { length numbers ≡ 128 },
    ghost room: { count ≤ (view plan).m + (view plan).r },
    ghost inside: { Elements ((view plan).m + (view plan).r) count numbers },
    ghost apart: { Apart count numbers },
    ghost symbols: { Elements (view plan).q (min count (view plan).m * (view plan).L) (shelved shelf) },
    ghost whole: { length (shelved shelf) ≡ 8192 },
}
