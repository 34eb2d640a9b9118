// The bytes of a packet: a header of twenty bytes, then the row.
#![tactic(auto)]

ghost use Rattle.std.specs.Prelude.{◌≡◌};
ghost use Rattle.packet.specs.Opening.{seen};

pub mod fault;
mod reads;
#[cfg(test)]
mod tests;
mod writes;

pub use reads::{open, symbols_of, word_at};
pub use writes::{packet_len, write};

// What a job is known by.
#[derive(Clone, Copy, PartialEq, Debug)]
pub struct Job {
    pub number: u16,
    // In bytes.
    pub length: u16,
}

// An opened packet: its number, and the bytes of its row, a part of the bytes that were opened.
#[derive(Clone, Copy, PartialEq, Debug)]
pub enum Packet<'a> {
    Data { number: u16, row: &'a [u8] },
    Check { number: u16, row: &'a [u8] },
}

// The letters JB.
pub const MARK: [u8; 2] = [74, 66];

pub const HEADER_LEN: usize = 20;

// Where the mark and the numbers of a header stand.
pub const MARK_AT: usize = 0;

pub const NUMBER_AT: usize = 2;

pub const DATA_COUNT_AT: usize = 4;

pub const CHECK_COUNT_AT: usize = 6;

pub const ROW_LEN_AT: usize = 8;
// The field's size less one.
pub const SIZE_AT: usize = 10;

pub const JOB_NUMBER_AT: usize = 12;

pub const JOB_LENGTH_AT: usize = 14;

pub const ROW_OFFSET_AT: usize = 16;

pub const ROW_COUNT_AT: usize = 18;

impl<'a> Packet<'a> {
    pub fn number(self) -> u16
        ensures { result ≡ (seen self.entry).number }
    {
        match self {
            Packet::Data { number, .. } | Packet::Check { number, .. } => number,
        }
    }

    pub fn row(self) -> &'a [u8]
        ensures { result.now ≡ (seen self.entry).row }
    {
        match self {
            Packet::Data { row, .. } | Packet::Check { row, .. } => row,
        }
    }
}
