// What a plan answers of itself.
ghost use Rattle.std.specs.Prelude.{◌≡◌, ◌≤◌};
ghost use Rattle.code.specs.Plans.{view, unmade};

use super::{Counts, MOST_NODES, Plan};

impl Plan {
    // What a plan's place holds before its first making.
    pub fn new() -> Plan
        ensures { view result ≡ unmade }
    {
        let mut nodes = [0; MOST_NODES];
        nodes[1] = 1;
        Plan {
            counts: Counts {
                data_count: 1,
                check_count: 1,
                row_len: 1,
            },
            size: 2,
            nodes,
        }
    }

    // Kept: a call for each number, since one that takes which number is meant would be no plainer to those who need one.
    pub fn data_count(&self) -> usize
        ensures answers { result ≡ (view self.now).m }
        ensures bounds { (1 ≤ result) × (result ≤ 64) }
    {
        self.counts.data_count
    }

    pub fn check_count(&self) -> usize
        ensures answers { result ≡ (view self.now).r }
        ensures bounds { (1 ≤ result) × (result ≤ 64) }
    {
        self.counts.check_count
    }

    // The symbols of a row.
    pub fn row_len(&self) -> usize
        ensures answers { result ≡ (view self.now).L }
        ensures bounds { (1 ≤ result) × (result ≤ 128) }
    {
        self.counts.row_len
    }

    // The size of the field.
    pub fn size(&self) -> u32
        ensures answers { result ≡ (view self.now).q }
        ensures bounds { (2 ≤ result) × (result ≤ 65536) }
    {
        self.size
    }
}
