// What follows from the counts of a plan.
ghost use Rattle.std.specs.Prelude.{◌≡◌, ◌+◌, ◌*◌, ◌≤◌};
ghost use Rattle.checks.specs.Checks.{first, answered};
ghost use Rattle.code.specs.Making.{range_checks};
ghost use Rattle.code.specs.Plans.{view};

use super::{Counts, MOST_PACKETS, MOST_SYMBOLS, Plan};
use crate::fault::PlanFault;

impl Counts {
    // The first that is out of its range.
    pub fn check(self) -> Result<(), PlanFault>
        ensures { result ≡ answered (first (range_checks self.data_count self.check_count self.row_len)) tt }
    {
        if !(1..=MOST_PACKETS).contains(&self.data_count) {
            return Err(PlanFault::Range(0));
        }
        if !(1..=MOST_PACKETS).contains(&self.check_count) {
            return Err(PlanFault::Range(1));
        }
        if !(1..=MOST_SYMBOLS).contains(&self.row_len) {
            return Err(PlanFault::Range(2));
        }
        Ok(())
    }
}

impl Plan {
    pub fn packet_count(&self) -> usize
        ensures answers { result ≡ (view self.now).m + (view self.now).r }
        ensures bounds { (2 ≤ result) × (result ≤ 128) }
    {
        self.counts.data_count + self.counts.check_count
    }

    // The symbols of a message.
    pub fn message_len(&self) -> usize
        ensures answers { result ≡ (view self.now).m * (view self.now).L }
        ensures bounds { (1 ≤ result) × (result ≤ 8192) }
    {
        self.counts.data_count * self.counts.row_len
    }

    pub fn nodes(&self) -> &[u16]
        ensures { result.now ≡ (view self.now).nodes }
    {
        &self.nodes[..self.packet_count()]
    }
}
