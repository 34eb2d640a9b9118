// A plan: how many packets of which length, over a field of which size, and the packets' nodes.
ghost use Rattle.std.specs.Prelude.{◌≡◌, ◌+◌, ◌≤◌, length};
ghost use Rattle.code.specs.Nodes.{Elements, Apart};

pub mod making;
pub mod prints;
pub mod reads;
pub mod rows;
pub mod settles;
pub mod standard;
pub mod totals;

pub const MOST_PACKETS: usize = 64;

pub const MOST_NODES: usize = 2 * MOST_PACKETS;

pub const MOST_SYMBOLS: usize = 128;

// m, r and L: how many data packets and check packets there are, and how many symbols a row has.
#[derive(Clone, Copy, PartialEq, Debug)]
pub struct Counts {
    pub data_count: usize,
    pub check_count: usize,
    pub row_len: usize,
}

// The nodes of the data packets stand first, those of the check packets behind them.
// Kept, here and where plans are made: an array of which the first m + r places are used, since a plan is copied on the
// device, which has no heap.
#[derive(Clone, Copy)]
pub struct Plan {
    counts: Counts,
    size: u32,
    nodes: [u16; MOST_NODES],
    ghost some_data: { 1 ≤ counts.data_count },
    ghost few_data: { counts.data_count ≤ 64 },
    ghost some_checks: { 1 ≤ counts.check_count },
    ghost few_checks: { counts.check_count ≤ 64 },
    ghost some_symbols: { 1 ≤ counts.row_len },
    ghost few_symbols: { counts.row_len ≤ 128 },
    ghost least_size: { 2 ≤ size },
    ghost most_size: { size ≤ 65536 },
    ghost room: { length nodes ≡ 128 },
    ghost elements: { Elements size (counts.data_count + counts.check_count) nodes },
    ghost apart: { Apart (counts.data_count + counts.check_count) nodes },
}
